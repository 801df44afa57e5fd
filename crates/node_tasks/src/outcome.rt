// What the outcome of a tool gives.
ghost use Rattle.std.specs.Prelude.{◌≡◌, [], map, IfOk};
ghost use Rattle.meaning_tasks.specs.Settle.{labelled, made_value, outcome_own};

use crate::own::Own;
use object_values::{
    Bytes, Copied, Memory, Message, Outcome, OwnLine, Part, Seq, Status, Text, Value,
};
use std::alloc::Global;

/// What the tool gave: its messages under the label, which share the texts of its lines, and the
/// value that its outputs make unless it gave up.
pub(crate) fn outcome_own(
    alloc: Global,
    label: Bytes,
    makes_compound: bool,
    outcome: &Outcome,
) -> Result<Own, Memory>
    ensures { IfOk result (λ own. own ≡
        outcome_own label makes_compound [] (Some outcome.now)) }
{
    let messages = labelled(alloc, label, outcome.lines.as_slice())?;
    if outcome.status == Status::Abort {
        return Ok(Own::aborted(messages));
    }
    let value = made_value(alloc, makes_compound, &outcome.outputs)?;
    Ok(Own::valued(value, outcome.status, messages))
}

fn labelled(alloc: Global, label: Bytes, lines: &[OwnLine]) -> Result<Seq<Message>, Memory>
    ensures { IfOk result (λ messages. messages ≡ map (labelled label) lines.now) }
{
    let mut messages = Seq::new(alloc);
    if lines.is_empty() {
        return Ok(messages);
    }
    let shared = Text::of(label)?;
    for line in lines {
        messages.push(Message {
            label: shared.copy(alloc)?,
            level: line.level,
            text: line.text.copy(alloc)?,
        })?;
    }
    Ok(messages)
}

// The compound of all outputs, or the first one.
fn made_value(alloc: Global, makes_compound: bool, outputs: &Seq<Part>) -> Result<Value, Memory>
    ensures { IfOk result (λ value. value ≡ made_value makes_compound outputs.now) }
{
    if makes_compound {
        return Ok(Value::Compound(outputs.copy(alloc)?));
    }
    match outputs.as_slice().first() {
        Some(output) => Ok(Value::Simple(output.body.copy(alloc)?)),
        None => Ok(Value::Simple(Text::of(Bytes::new(alloc))?)),
    }
}
