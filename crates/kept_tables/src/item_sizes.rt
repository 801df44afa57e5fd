// How long the items of batches are, of which none is made.
ghost use Rattle.std.specs.Prelude.{◌≡◌, ◌+◌, IfOk, OnOk, length};
ghost use Rattle.object_values.specs.declared.views.Value.TheVariants.{Simple};
ghost use Rattle.meaning_records.specs.Batches.{body_of};
ghost use Rattle.kept_contents.specs.Added.{AddsOne, AddsTexts, AreHeld, contents_with, texts_of_outputs, texts_of_parts};
ghost use Rattle.kept_contents.specs.Stocks.{values_of_contents};
ghost use Rattle.kept_tables.specs.Batching.{CountsOutput, CountsOutputs, CountsPart, CountsParts, head_text, lines_text, rest_text};

use kept_contents::{AddedContents, CallHead, ContentTable, number_text};
use object_values::{Bytes, CallPart, Memory, Outcome, Part};
use std::alloc::Global;
use store_records::Recorded;

// The bytes of an input beside its label: its slot, a length, and whether it has a content.
const BESIDE_LABEL: u64 = 9;

// The bytes of a number, and of a length or a count.
const NUMBER: u64 = 4;

/// How long the item is that gives a source a text.
pub(crate) fn size_of_put(name: &Bytes) -> Result<u64, Memory>
    ensures { IfOk result (λ size. size ≡ length name.now + 9) }
{
    // a kind, a length and a number
    sum(name.len() as u64, 9)
}

/// How long the inputs of a call are, whose texts come after the others where they aren't there.
pub(crate) fn count_parts(
    alloc: Global,
    table: &mut ContentTable,
    added: &mut AddedContents,
    parts: &[CallPart],
) -> Result<u64, Memory>
    requires { AreHeld table.old.texts added.old }
    ensures parts { IfOk result
        (CountsParts (contents_with table.new.contents added.new) parts.now) }
    ensures adds { OnOk result (AddsTexts table.old.contents (texts_of_parts parts.now)
        (values_of_contents added.old) (values_of_contents added.new)) }
    ensures held { OnOk result (AreHeld table.new.texts added.new) }
    ensures contents { table.new.contents ≡ table.old.contents }
{
    let mut size = 0;
    for part in parts {
        size = sum(size, count_part(alloc, table, added, part)?)?;
    }
    Ok(size)
}

fn count_part(
    alloc: Global,
    table: &mut ContentTable,
    added: &mut AddedContents,
    part: &CallPart,
) -> Result<u64, Memory>
    requires { AreHeld table.old.texts added.old }
    ensures part { IfOk result
        (CountsPart (contents_with table.new.contents added.new) part.now) }
    ensures adds { OnOk result (AddsTexts table.old.contents (body_of part.now.body)
        (values_of_contents added.old) (values_of_contents added.new)) }
    ensures held { OnOk result (AreHeld table.new.texts added.new) }
    ensures contents { table.new.contents ≡ table.old.contents }
{
    let size = sum(part.label.len() as u64, BESIDE_LABEL)?;
    match &part.body {
        Some(text) => {
            let _ = number_text(alloc, table, added, text)?;
            sum(size, NUMBER)
        }
        None => Ok(size),
    }
}

/// How long the outputs of an outcome are, whose texts come after the others where they aren't there.
pub(crate) fn count_outputs(
    alloc: Global,
    table: &mut ContentTable,
    added: &mut AddedContents,
    outputs: &[Part],
) -> Result<u64, Memory>
    requires { AreHeld table.old.texts added.old }
    ensures outputs { IfOk result
        (CountsOutputs (contents_with table.new.contents added.new) outputs.now) }
    ensures adds { OnOk result (AddsTexts table.old.contents (texts_of_outputs outputs.now)
        (values_of_contents added.old) (values_of_contents added.new)) }
    ensures held { OnOk result (AreHeld table.new.texts added.new) }
    ensures contents { table.new.contents ≡ table.old.contents }
{
    let mut size = 0;
    for output in outputs {
        size = sum(size, count_output(alloc, table, added, output)?)?;
    }
    Ok(size)
}

fn count_output(
    alloc: Global,
    table: &mut ContentTable,
    added: &mut AddedContents,
    output: &Part,
) -> Result<u64, Memory>
    requires { AreHeld table.old.texts added.old }
    ensures output { IfOk result
        (CountsOutput (contents_with table.new.contents added.new) output.now) }
    ensures adds { OnOk result (AddsOne table.old.contents (Simple output.now.body)
        (values_of_contents added.old) (values_of_contents added.new)) }
    ensures held { OnOk result (AreHeld table.new.texts added.new) }
    ensures contents { table.new.contents ≡ table.old.contents }
{
    let _ = number_text(alloc, table, added, &output.body)?;
    // a length and a number
    sum(output.name.len() as u64, NUMBER + NUMBER)
}

/// How long the item of a kept call is beside its inputs and outputs.
pub(crate) fn size_of_rest(
    record: &mut Bytes,
    head: &CallHead,
    outcome: &Outcome,
) -> Result<u64, Memory>
    ensures { IfOk result (λ size. size ≡ rest_text head.now outcome.now) }
{
    let called = size_of_head(record, head)?;
    let came = size_of_lines(record, outcome)?;
    sum(called, came)
}

// A kind comes first.
fn size_of_head(record: &mut Bytes, head: &CallHead) -> Result<u64, Memory>
    ensures { IfOk result (λ size. size ≡ head_text head.now) }
{
    let size = sum(1, size_of(record, &head.tool)?)?;
    let size = sum(size, size_of(record, &head.version)?)?;
    let size = sum(size, size_of(record, &head.words)?)?;
    let size = sum(size, size_of(record, &head.params)?)?;
    sum(size, size_of(record, &head.outs)?)
}

// With the counts of inputs and outputs.
fn size_of_lines(record: &mut Bytes, outcome: &Outcome) -> Result<u64, Memory>
    ensures { IfOk result (λ size. size ≡ lines_text outcome.now) }
{
    let size = size_of(record, &outcome.status)?;
    let size = sum(size, size_of(record, &outcome.lines)?)?;
    sum(size, NUMBER + NUMBER)
}

// How long a record is, which is written for it.
pub(crate) fn size_of<T: Recorded>(record: &mut Bytes, thing: &T) -> Result<u64, Memory>
    ensures { IfOk result (λ size. size ≡ length (T.form.spell thing.now)) }
{
    record.clear();
    thing.put(record)?;
    Ok(record.len() as u64)
}

pub(crate) fn sum(a: u64, b: u64) -> Result<u64, Memory>
    ensures { IfOk result (λ sum. sum ≡ a + b) }
{
    match a.checked_add(b) {
        Some(sum) => Ok(sum),
        None => Err(Memory),
    }
}
