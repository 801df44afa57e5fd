// Whether a call is well formed.
ghost use Rattle.std.specs.Prelude.{◌≡◌, ◌↔◌, IsTrue};
ghost use Rattle.std.specs.List.{list_all};
ghost use Rattle.meaning_texts.specs.Tests.{is_id};
ghost use Rattle.meaning_calls.specs.Jobs.{IsWellFormed};
ghost use Rattle.kept_tables.specs.Tests.{is_label, is_label_byte, is_short, is_part_of_class, is_well_formed};

use object_values::{BODY_LIMIT, Bytes, Call, CallPart, Text};
use odin_bytes::{are_params, is_id, is_name};

/// Whether the call's words, parameters, inputs and outputs are of their classes.
#[tactic(auto, using(crate::proofs::CallLemmas::formed_decides))]
pub fn is_well_formed(call: &Call) -> bool
    ensures { IsTrue result ↔ IsWellFormed call.now }
{
    test_call(call)
}

fn test_call(call: &Call) -> bool
    ensures { result ≡ is_well_formed call.now }
{
    is_id(call.tool.as_slice())
        && is_name(call.version.as_slice())
        && are_params(call.params.as_slice())
        && are_parts(call.parts.as_slice())
        && are_ids(call.outs.as_slice())
}

fn are_parts(parts: &[CallPart]) -> bool
    ensures { result ≡ list_all is_part_of_class parts.now }
{
    parts.iter().all(|part| is_part(part))
}

fn is_part(part: &CallPart) -> bool
    ensures { result ≡ is_part_of_class part.now }
{
    // any slot of 32 bits is one
    let _slot = part.slot;
    is_label(part.label.as_slice()) && is_short(&part.body)
}

fn is_label(text: &[u8]) -> bool
    ensures { result ≡ is_label text.now }
{
    text.iter().all(|byte| is_label_byte(*byte))
}

fn is_label_byte(byte: u8) -> bool
    ensures { result ≡ is_label_byte byte }
{
    byte != b' ' && byte != b'\n'
}

fn is_short(body: &Option<Text>) -> bool
    ensures { result ≡ is_short body.now }
{
    match body {
        Some(body) => body.len() <= BODY_LIMIT,
        None => true,
    }
}

fn are_ids(words: &[Bytes]) -> bool
    ensures { result ≡ list_all is_id words.now }
{
    words.iter().all(|word| is_id(word.as_slice()))
}
