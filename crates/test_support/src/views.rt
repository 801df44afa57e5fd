// What a store holds, as bytes.

use kept_tables::{Kept, KeptCall};
use object_values::{
    Bytes, Call, CallPart, Memory, Outcome, OwnLine, ParamValue, Part, Sources, Status, Text,
};
use odin_bytes::{put_bytes, put_u8, put_u32};
use odin_store::Store;
use std::alloc::Global;

// The bytes after their length. What is longer than a length can say isn't written.
pub(crate) fn add_bytes(out: &mut Bytes, bytes: &[u8]) -> Result<(), Memory> {
    if bytes.len() > u32::MAX as usize {
        return Err(Memory);
    }
    put_bytes(out, bytes)
}

pub(crate) fn add_count(out: &mut Bytes, count: usize) -> Result<(), Memory> {
    match u32::try_from(count) {
        Ok(count) => put_u32(out, count),
        Err(_) => Err(Memory),
    }
}

fn add_words(out: &mut Bytes, words: &[Bytes]) -> Result<(), Memory> {
    add_count(out, words.len())?;
    for word in words {
        add_bytes(out, word.as_slice())?;
    }
    Ok(())
}

pub(crate) fn add_params(out: &mut Bytes, params: &[ParamValue]) -> Result<(), Memory> {
    add_count(out, params.len())?;
    for ParamValue { param, value } in params {
        add_bytes(out, param.as_slice())?;
        add_bytes(out, value.as_slice())?;
    }
    Ok(())
}

fn add_body(out: &mut Bytes, body: &Option<Text>) -> Result<(), Memory> {
    match body {
        Some(body) => {
            put_u8(out, 1)?;
            add_bytes(out, body.as_slice())
        }
        None => put_u8(out, 0),
    }
}

fn add_parts(out: &mut Bytes, parts: &[CallPart]) -> Result<(), Memory> {
    add_count(out, parts.len())?;
    for CallPart { slot, label, body } in parts {
        put_u32(out, *slot)?;
        add_bytes(out, label.as_slice())?;
        add_body(out, body)?;
    }
    Ok(())
}

fn add_call(out: &mut Bytes, call: &Call) -> Result<(), Memory> {
    add_bytes(out, call.tool.as_slice())?;
    add_bytes(out, call.version.as_slice())?;
    add_words(out, call.words.as_slice())?;
    add_params(out, call.params.as_slice())?;
    add_parts(out, call.parts.as_slice())?;
    add_words(out, call.outs.as_slice())
}

pub(crate) fn add_status(out: &mut Bytes, status: Status) -> Result<(), Memory> {
    let number = match status {
        Status::Ok => 0,
        Status::Warning => 1,
        Status::Error => 2,
        Status::Abort => 3,
    };
    put_u8(out, number)
}

fn add_lines(out: &mut Bytes, lines: &[OwnLine]) -> Result<(), Memory> {
    add_count(out, lines.len())?;
    for OwnLine { level, text } in lines {
        add_status(out, *level)?;
        add_bytes(out, text.as_slice())?;
    }
    Ok(())
}

fn add_outputs(out: &mut Bytes, outputs: &[Part]) -> Result<(), Memory> {
    add_count(out, outputs.len())?;
    for Part { name, body } in outputs {
        add_bytes(out, name.as_slice())?;
        add_bytes(out, body.as_slice())?;
    }
    Ok(())
}

fn add_outcome(out: &mut Bytes, outcome: &Outcome) -> Result<(), Memory> {
    add_status(out, outcome.status)?;
    add_lines(out, outcome.lines.as_slice())?;
    add_outputs(out, outcome.outputs.as_slice())
}

fn add_sources(out: &mut Bytes, sources: &Sources) -> Result<(), Memory> {
    add_count(out, sources.len())?;
    for place in 0..sources.len() {
        let Some((name, text)) = sources.at(place) else {
            return Err(Memory);
        };
        add_bytes(out, name.as_slice())?;
        add_bytes(out, text.as_slice())?;
    }
    Ok(())
}

fn add_kept(alloc: Global, out: &mut Bytes, kept: &Kept, place: u64) -> Result<(), Memory> {
    let Some(KeptCall { call, outcome }) = kept.call_at(alloc, place)? else {
        return Err(Memory);
    };
    add_call(out, &call)?;
    add_outcome(out, &outcome)
}

fn add_calls(alloc: Global, out: &mut Bytes, kept: &Kept) -> Result<(), Memory> {
    add_count(out, kept.calls() as usize)?;
    for place in 0..kept.calls() {
        add_kept(alloc, out, kept, place)?;
    }
    Ok(())
}

/// The sources by their names, then the kept calls in the order in which they were kept, each with its outcome: in the forms of
/// records of docs/engineer/store-format.md, with the
/// texts in place of their numbers.
pub fn held(alloc: Global, store: &Store) -> Result<Bytes, Memory> {
    let mut out = Bytes::new(alloc);
    add_sources(&mut out, store.sources())?;
    add_calls(alloc, &mut out, store.kept())?;
    Ok(out)
}
