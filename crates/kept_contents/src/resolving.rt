// From the numbers of a record to its texts.
ghost use Rattle.std.specs.Prelude.{◌≡◌, List, Option, IfNone, IfOk, IfSome};
ghost use Rattle.object_values.specs.declared.calls.Call.{Call as CallValue};
ghost use Rattle.object_values.specs.declared.calls.CallPart.{CallPart as PartValue};
ghost use Rattle.object_values.specs.declared.calls.Outcome.{Outcome as OutcomeValue};
ghost use Rattle.object_values.specs.declared.views.Part.{Part as OutputValue};
ghost use Rattle.kept_contents.specs.Heads.{AreMore};
ghost use Rattle.kept_contents.specs.Held.{IsHeld};
ghost use Rattle.kept_contents.specs.Inputs.{AreHeldParts, IsHeldPart, hash_of_parts, id_of};
ghost use Rattle.meaning_records.specs.Tables.{IsPartOf, ArePartsOf, IsCallOf, IsOutputOf, AreOutputsOf, IsOutcomeOf};

use crate::heads::Heads;
use crate::held::HeldCall;
use crate::inputs::feed_part;
use crate::table::ContentTable;
use object_values::{
    Call, CallPart, Copied, Memory, Outcome, Part, Seq, StoredCall, StoredOutcome, StoredOutput,
    StoredPart,
};
use std::alloc::Global;
use std::hash::{FoldHasher, Hasher};

/// The call of a record, which is held from now on; its inputs share the texts of the table. `None` where a content isn't there or is no text.
pub fn call_of(
    alloc: Global,
    table: &ContentTable,
    heads: &mut Heads,
    stored: StoredCall,
) -> Result<Option<HeldCall>, Memory>
    ensures some { IfOk result (λ found.
        IfSome found (λ held. IsCallOf table.now.contents stored held.call)) }
    ensures held { IfOk result (λ found. IfSome found (IsHeld heads.new table.now.texts)) }
    ensures more { AreMore heads.old heads.new }
    ensures none { IfOk result (λ found.
        IfNone found ((call : CallValue) → ¬ IsCallOf table.now.contents stored call)) }
{
    match parts_of(alloc, table, stored.parts.as_slice())? {
        Some(found) => {
            let (parts, hash) = found;
            let call = with_parts(stored, parts);
            Ok(Some(HeldCall::of(alloc, heads, hash, call)?))
        }
        None => Ok(None),
    }
}

// The call with these inputs.
fn with_parts(stored: StoredCall, parts: Seq<CallPart>) -> Call
    ensures { result ≡ record {
      tool = stored.tool;
      version = stored.version;
      words = stored.words;
      params = stored.params;
      parts = parts;
      outs = stored.outs;
    } }
{
    let StoredCall {
        tool,
        version,
        words,
        params,
        parts: numbers,
        outs,
    } = stored;
    drop(numbers);
    Call {
        tool,
        version,
        words,
        params,
        parts,
        outs,
    }
}

fn parts_of(
    alloc: Global,
    table: &ContentTable,
    stored: &[StoredPart],
) -> Result<Option<(Seq<CallPart>, u64)>, Memory>
    ensures some { IfOk result (λ found.
        IfSome found (λ p. ArePartsOf table.now.contents stored.now p.0)) }
    ensures hash { IfOk result (λ found.
        IfSome found (λ p. p.1 ≡ hash_of_parts table.now.texts p.0)) }
    ensures held { IfOk result (λ found.
        IfSome found (λ p. AreHeldParts table.now.texts p.0)) }
    ensures none { IfOk result (λ found. IfNone found
        ((parts : List PartValue) → ¬ ArePartsOf table.now.contents stored.now parts)) }
{
    let mut parts = Seq::new(alloc);
    let mut state = FoldHasher::default();
    for part in stored {
        let Some((made, text)) = part_of(alloc, table, part)? else {
            return Ok(None);
        };
        feed_part(&made, text, &mut state);
        parts.push(made)?;
    }
    Ok(Some((parts, state.finish())))
}

fn part_of(
    alloc: Global,
    table: &ContentTable,
    stored: &StoredPart,
) -> Result<Option<(CallPart, Option<u64>)>, Memory>
    ensures some { IfOk result (λ found.
        IfSome found (λ p. IsPartOf table.now.contents stored.now p.0)) }
    ensures id { IfOk result (λ found.
        IfSome found (λ p. p.1 ≡ id_of table.now.texts p.0.body)) }
    ensures held { IfOk result (λ found.
        IfSome found (λ p. IsHeldPart table.now.texts p.0)) }
    ensures none { IfOk result (λ found.
        IfNone found ((part : PartValue) → ¬ IsPartOf table.now.contents stored.now part)) }
{
    let (body, id) = match stored.content {
        Some(number) => match table.shared(number) {
            Some(shared) => (Some(shared.text.copy(alloc)?), Some(shared.id)),
            None => return Ok(None),
        },
        None => (None, None),
    };
    let label = stored.label.copy(alloc)?;
    let part = CallPart {
        slot: stored.slot,
        label,
        body,
    };
    Ok(Some((part, id)))
}

/// The outcome of a record, whose outputs share the texts of the table. `None` where a content isn't there or is no text.
pub fn outcome_of(
    alloc: Global,
    table: &ContentTable,
    stored: StoredOutcome,
) -> Result<Option<Outcome>, Memory>
    ensures some { IfOk result (λ found. IfSome found (IsOutcomeOf table.now.contents stored)) }
    ensures none { IfOk result (λ found.
        IfNone found ((outcome : OutcomeValue) → ¬ IsOutcomeOf table.now.contents stored outcome)) }
{
    match outputs_of(alloc, table, stored.outputs.as_slice())? {
        Some(outputs) => Ok(Some(with_outputs(stored, outputs))),
        None => Ok(None),
    }
}

// The outcome with these outputs.
fn with_outputs(stored: StoredOutcome, outputs: Seq<Part>) -> Outcome
    ensures { result ≡ record { status = stored.status; lines = stored.lines; outputs = outputs } }
{
    let StoredOutcome {
        status,
        lines,
        outputs: numbers,
    } = stored;
    drop(numbers);
    Outcome {
        status,
        lines,
        outputs,
    }
}

fn outputs_of(
    alloc: Global,
    table: &ContentTable,
    stored: &[StoredOutput],
) -> Result<Option<Seq<Part>>, Memory>
    ensures some { IfOk result (λ found.
        IfSome found (AreOutputsOf table.now.contents stored.now)) }
    ensures none { IfOk result (λ found. IfNone found
        ((outputs : List OutputValue) → ¬ AreOutputsOf table.now.contents stored.now outputs)) }
{
    let mut outputs = Seq::new(alloc);
    for output in stored {
        match output_of(alloc, table, output)? {
            Some(made) => outputs.push(made)?,
            None => return Ok(None),
        }
    }
    Ok(Some(outputs))
}

fn output_of(
    alloc: Global,
    table: &ContentTable,
    stored: &StoredOutput,
) -> Result<Option<Part>, Memory>
    ensures some { IfOk result (λ found. IfSome found (IsOutputOf table.now.contents stored.now)) }
    ensures none { IfOk result (λ found.
        IfNone found ((output : OutputValue) → ¬ IsOutputOf table.now.contents stored.now output)) }
{
    let Some(text) = table.text(stored.content) else {
        return Ok(None);
    };
    let body = text.copy(alloc)?;
    Ok(Some(Part {
        name: stored.name.copy(alloc)?,
        body,
    }))
}
