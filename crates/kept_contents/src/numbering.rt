// From values to their numbers: of contents that the file has, and of those that a batch adds after them; and the records that name them.
ghost use Rattle.std.specs.Prelude.{◌≡◌, ◌+◌, IfOk, OnOk, Some};
ghost use Rattle.object_values.specs.declared.views.Value.TheVariants.{Simple};
ghost use Rattle.meaning_records.specs.Tables.{IsText, IsPartOf, ArePartsOf, IsCallOf, IsOutputOf, AreOutputsOf, IsOutcomeOf};
ghost use Rattle.meaning_records.specs.Batches.{body_of};
ghost use Rattle.content_store.specs.Bodies.{place_of_body};
ghost use Rattle.kept_contents.specs.Stocks.{IsGrownFrom, IsOther, values_of_contents};
ghost use Rattle.kept_contents.specs.Added.{AddsOne, AddsTexts, AreHeld, IsContent, contents_with, texts_of_parts, texts_of_outputs};

use crate::added::AddedContents;
use crate::index::digest_of;
use crate::shared::Shared;
use crate::table::ContentTable;
use object_values::{
    Call, CallPart, Copied, Memory, Outcome, Part, Seq, StoredCall, StoredOutcome, StoredOutput,
    StoredPart, Text, Value, copy_five,
};
use std::alloc::Global;

/// The number of a value, which is added where neither the file nor the batch has it.
pub fn number_value(
    alloc: Global,
    table: &mut ContentTable,
    added: &mut AddedContents,
    value: &Value,
) -> Result<u32, Memory>
    requires { AreHeld table.old.texts added.old }
    ensures number { IfOk result (λ n.
        IsContent (contents_with table.new.contents added.new) n value.now) }
    ensures adds { OnOk result (AddsOne table.old.contents value.now
        (values_of_contents added.old) (values_of_contents added.new)) }
    ensures held { OnOk result (AreHeld table.new.texts added.new) }
    ensures contents { table.new.contents ≡ table.old.contents }
    ensures texts { IsGrownFrom table.old.texts table.new.texts }
{
    match value {
        Value::Simple(text) => number_text(alloc, table, added, text),
        other => number_other(alloc, table, added, other),
    }
}

// The number of a list or a compound. Its digest is taken once.
fn number_other(
    alloc: Global,
    table: &ContentTable,
    added: &mut AddedContents,
    value: &Value,
) -> Result<u32, Memory>
    requires other { IsOther value.now }
    requires added { AreHeld table.now.texts added.old }
    ensures number { IfOk result (λ n.
        IsContent (contents_with table.now.contents added.new) n value.now) }
    ensures adds { OnOk result (AddsOne table.now.contents value.now
        (values_of_contents added.old) (values_of_contents added.new)) }
    ensures held { OnOk result (AreHeld table.now.texts added.new) }
{
    let digest = digest_of(value);
    if let Some(number) = table.number_of_other(&digest, value) {
        return number_behind(0, number as usize);
    }
    if let Some(place) = added.place_of_other(&digest, value) {
        return number_behind(table.len(), place as usize);
    }
    let value = value.copy(alloc)?;
    let place = added.len();
    added.push_other(digest, value)?;
    number_behind(table.len(), place)
}

/// The number of a text, which is added where neither the file nor the batch has it.
pub fn number_text(
    alloc: Global,
    table: &mut ContentTable,
    added: &mut AddedContents,
    text: &Text,
) -> Result<u32, Memory>
    requires { AreHeld table.old.texts added.old }
    ensures number { IfOk result (λ n.
        IsText (contents_with table.new.contents added.new) n text.now) }
    ensures adds { OnOk result
        (AddsOne table.old.contents (Simple text.now)
        (values_of_contents added.old) (values_of_contents added.new)) }
    ensures held { OnOk result (AreHeld table.new.texts added.new) }
    ensures contents { table.new.contents ≡ table.old.contents }
    ensures texts { IsGrownFrom table.old.texts table.new.texts }
{
    let shared = table.share(alloc, text)?;
    number_shared(table, added, shared)
}

// The number of a text that is held.
fn number_shared(
    table: &ContentTable,
    added: &mut AddedContents,
    shared: Shared,
) -> Result<u32, Memory>
    requires text { place_of_body shared.text table.now.texts ≡ Some shared.id }
    requires added { AreHeld table.now.texts added.old }
    ensures number { IfOk result (λ n.
        IsText (contents_with table.now.contents added.new) n shared.text) }
    ensures adds { OnOk result
        (AddsOne table.now.contents (Simple shared.text)
        (values_of_contents added.old) (values_of_contents added.new)) }
    ensures held { OnOk result (AreHeld table.now.texts added.new) }
{
    if let Some(number) = table.number(&shared) {
        return Ok(number);
    }
    if let Some(place) = added.place_of(shared.id) {
        return number_behind(table.len(), place);
    }
    let place = added.len();
    added.push_text(shared)?;
    number_behind(table.len(), place)
}

// The number of the content at a place after so many.
fn number_behind(len: usize, place: usize) -> Result<u32, Memory>
    ensures { IfOk result (λ number. number ≡ len + place) }
{
    match len.checked_add(place) {
        Some(number) if number <= u32::MAX as usize => Ok(number as u32),
        _ => Err(Memory),
    }
}

/// A call by the numbers of its inputs.
pub fn stored_call(
    alloc: Global,
    table: &mut ContentTable,
    added: &mut AddedContents,
    call: &Call,
) -> Result<StoredCall, Memory>
    requires { AreHeld table.old.texts added.old }
    ensures call { IfOk result (λ stored.
        IsCallOf (contents_with table.new.contents added.new) stored call.now) }
    ensures adds { OnOk result (AddsTexts table.old.contents (texts_of_parts call.now.parts)
        (values_of_contents added.old) (values_of_contents added.new)) }
    ensures held { OnOk result (AreHeld table.new.texts added.new) }
    ensures contents { table.new.contents ≡ table.old.contents }
    ensures texts { IsGrownFrom table.old.texts table.new.texts }
{
    let parts = number_parts(alloc, table, added, call.parts.as_slice())?;
    let copied = copy_five(
        alloc,
        &call.tool,
        &call.version,
        &call.words,
        &call.params,
        &call.outs,
    )?;
    let (tool, version, words, params, outs) = copied;
    Ok(StoredCall {
        tool,
        version,
        words,
        params,
        parts,
        outs,
    })
}

/// An outcome by the numbers of its outputs.
pub fn stored_outcome(
    alloc: Global,
    table: &mut ContentTable,
    added: &mut AddedContents,
    outcome: &Outcome,
) -> Result<StoredOutcome, Memory>
    requires { AreHeld table.old.texts added.old }
    ensures outcome { IfOk result (λ stored.
        IsOutcomeOf (contents_with table.new.contents added.new) stored outcome.now) }
    ensures adds { OnOk result (AddsTexts table.old.contents (texts_of_outputs outcome.now.outputs)
        (values_of_contents added.old) (values_of_contents added.new)) }
    ensures held { OnOk result (AreHeld table.new.texts added.new) }
    ensures contents { table.new.contents ≡ table.old.contents }
    ensures texts { IsGrownFrom table.old.texts table.new.texts }
{
    let outputs = number_outputs(alloc, table, added, outcome.outputs.as_slice())?;
    let lines = outcome.lines.copy(alloc)?;
    Ok(StoredOutcome {
        status: outcome.status,
        lines,
        outputs,
    })
}

// The inputs of a call by number.
fn number_parts(
    alloc: Global,
    table: &mut ContentTable,
    added: &mut AddedContents,
    parts: &[CallPart],
) -> Result<Seq<StoredPart>, Memory>
    requires { AreHeld table.old.texts added.old }
    ensures parts { IfOk result (λ stored.
        ArePartsOf (contents_with table.new.contents added.new) stored parts.now) }
    ensures adds { OnOk result (AddsTexts table.old.contents (texts_of_parts parts.now)
        (values_of_contents added.old) (values_of_contents added.new)) }
    ensures held { OnOk result (AreHeld table.new.texts added.new) }
    ensures contents { table.new.contents ≡ table.old.contents }
    ensures texts { IsGrownFrom table.old.texts table.new.texts }
{
    let mut stored = Seq::new(alloc);
    for part in parts {
        stored.push(number_part(alloc, table, added, part)?)?;
    }
    Ok(stored)
}

fn number_part(
    alloc: Global,
    table: &mut ContentTable,
    added: &mut AddedContents,
    part: &CallPart,
) -> Result<StoredPart, Memory>
    requires { AreHeld table.old.texts added.old }
    ensures part { IfOk result (λ stored.
        IsPartOf (contents_with table.new.contents added.new) stored part.now) }
    ensures adds { OnOk result (AddsTexts table.old.contents (body_of part.now.body)
        (values_of_contents added.old) (values_of_contents added.new)) }
    ensures held { OnOk result (AreHeld table.new.texts added.new) }
    ensures contents { table.new.contents ≡ table.old.contents }
    ensures texts { IsGrownFrom table.old.texts table.new.texts }
{
    let content = match &part.body {
        Some(text) => Some(number_text(alloc, table, added, text)?),
        None => None,
    };
    Ok(StoredPart {
        slot: part.slot,
        label: part.label.copy(alloc)?,
        content,
    })
}

// The outputs of an outcome by number.
fn number_outputs(
    alloc: Global,
    table: &mut ContentTable,
    added: &mut AddedContents,
    outputs: &[Part],
) -> Result<Seq<StoredOutput>, Memory>
    requires { AreHeld table.old.texts added.old }
    ensures outputs { IfOk result (λ stored.
        AreOutputsOf (contents_with table.new.contents added.new) stored outputs.now) }
    ensures adds { OnOk result (AddsTexts table.old.contents (texts_of_outputs outputs.now)
        (values_of_contents added.old) (values_of_contents added.new)) }
    ensures held { OnOk result (AreHeld table.new.texts added.new) }
    ensures contents { table.new.contents ≡ table.old.contents }
    ensures texts { IsGrownFrom table.old.texts table.new.texts }
{
    let mut stored = Seq::new(alloc);
    for output in outputs {
        stored.push(number_output(alloc, table, added, output)?)?;
    }
    Ok(stored)
}

fn number_output(
    alloc: Global,
    table: &mut ContentTable,
    added: &mut AddedContents,
    output: &Part,
) -> Result<StoredOutput, Memory>
    requires { AreHeld table.old.texts added.old }
    ensures output { IfOk result (λ stored.
        IsOutputOf (contents_with table.new.contents added.new) stored output.now) }
    ensures adds { OnOk result (AddsOne table.old.contents (Simple output.now.body)
        (values_of_contents added.old) (values_of_contents added.new)) }
    ensures held { OnOk result (AreHeld table.new.texts added.new) }
    ensures contents { table.new.contents ≡ table.old.contents }
    ensures texts { IsGrownFrom table.old.texts table.new.texts }
{
    let content = number_text(alloc, table, added, &output.body)?;
    Ok(StoredOutput {
        name: output.name.copy(alloc)?,
        content,
    })
}
