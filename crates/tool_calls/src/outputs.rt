// The outputs that a tool leaves.
ghost use Rattle.std.specs.Prelude.{◌≡◌, ◌++◌, map, option_map, OnOk, IfOk};
ghost use Rattle.object_values.specs.declared.messages.Status.TheVariants.{Abort};
ghost use Rattle.meaning_calls.specs.Outcomes as meaning;

use crate::file_names::out_file;
use crate::left::Left;
use object_values::{BODY_LIMIT, Bytes, Copied, Memory, OwnLine, Part, Seq, Status, Text};
use std::alloc::Global;

// Adds what is wrong with the output, if anything is.
fn put_fault(
    alloc: Global,
    name: &[u8],
    body: Option<&Text>,
    lines: &mut Seq<OwnLine>,
) -> Result<(), Memory>
    ensures { let there = option_map (λ body. body.now) body.entry in
        let faults = meaning.output_fault name.now there in
        OnOk result (lines.new ≡ lines.old ++ map (meaning.at_level Abort) faults) }
{
    let mut text = Bytes::new(alloc);
    match body {
        None => {
            text.extend_from_slice(b"no output ")?;
            text.extend_from_slice(name)?;
        }
        Some(body) if body.len() > BODY_LIMIT => {
            text.extend_from_slice(b"output ")?;
            text.extend_from_slice(name)?;
            text.extend_from_slice(b" too long")?;
        }
        Some(_) => return Ok(()),
    }
    lines.push(OwnLine {
        level: Status::Abort,
        text: Text::of(text)?,
    })
}

/// Adds what is wrong with the outputs, in their order.
pub(crate) fn put_faults(
    alloc: Global,
    left: &Left,
    names: &[Bytes],
    lines: &mut Seq<OwnLine>,
) -> Result<(), Memory>
    ensures { let faults = meaning.output_faults left.now.raw.now names.now in
        OnOk result (lines.new ≡ lines.old ++ map (meaning.at_level Abort) faults) }
{
    for name in names {
        let file = out_file(alloc, name.as_slice())?;
        let body = left.body(file.as_slice());
        put_fault(alloc, name.as_slice(), body, lines)?;
    }
    Ok(())
}

fn output_of(alloc: Global, left: &Left, name: &Bytes) -> Result<Part, Memory>
    ensures { IfOk result (λ output. output ≡ meaning.output_of left.now.raw.now name.now) }
{
    let file = out_file(alloc, name.as_slice())?;
    let body = match left.body(file.as_slice()) {
        Some(body) => body.copy(alloc)?,
        None => Text::of(Bytes::new(alloc))?,
    };
    Ok(Part {
        name: name.copy(alloc)?,
        body,
    })
}

/// The outputs in their order. One that is missing is empty.
pub(crate) fn outputs_of(alloc: Global, left: &Left, names: &[Bytes]) -> Result<Seq<Part>, Memory>
    ensures { IfOk result (λ outputs. outputs ≡
        map (meaning.output_of left.now.raw.now) names.now) }
{
    let mut outputs = Seq::new(alloc);
    for name in names {
        outputs.push(output_of(alloc, left, name)?)?;
    }
    Ok(outputs)
}
