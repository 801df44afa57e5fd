// Contents: the record of a value, as bytes with their length.
ghost use Rattle.std.specs.Prelude.{◌≡◌, ◌++◌, OnOk, IfOk, IfSome, IfNone};
ghost use Rattle.object_values.specs.declared.views.Value.TheVariants.{Simple};
ghost use Rattle.meaning_records.specs.Forms.{ParsesAt, StandsNowhere};
ghost use Rattle.meaning_records.specs.Records.{content};

use crate::places::take_body;
use crate::recorded::Recorded;
use object_values::{Bytes, Memory, Text, Value};
use odin_bytes::{put_u8, put_u32};
use std::alloc::Global;

pub fn put_content(value: &Value, out: &mut Bytes) -> Result<(), Memory>
    ensures ok { OnOk result (out.new ≡ out.old ++ content.spell value.now) }
    ensures fits { OnOk result (content.fits value.now) }
{
    match value {
        Value::Simple(text) => put_text(text, out),
        other => put_other(other, out),
    }
}

// A text, which stands after its kind and its length in its record.
fn put_text(text: &Text, out: &mut Bytes) -> Result<(), Memory>
    ensures ok { OnOk result (out.new ≡ out.old ++ content.spell (Simple text.now)) }
    ensures fits { OnOk result (content.fits (Simple text.now)) }
{
    let length = text.len().saturating_add(5);
    if length > u32::MAX as usize {
        return Err(Memory);
    }
    put_u32(out, length as u32)?;
    put_u8(out, 1)?;
    text.put(out)
}

// Any value. Its record is written twice, at first for its length.
fn put_other(value: &Value, out: &mut Bytes) -> Result<(), Memory>
    ensures ok { OnOk result (out.new ≡ out.old ++ content.spell value.now) }
    ensures fits { OnOk result (content.fits value.now) }
{
    let before = out.len();
    value.put(out)?;
    let length = out.len() - before;
    if length > u32::MAX as usize {
        return Err(Memory);
    }
    out.truncate(before);
    put_u32(out, length as u32)?;
    value.put(out)
}

pub fn take_content(alloc: Global, from: &Text, at: usize) -> Result<Option<(Value, usize)>, Memory>
    ensures some { IfOk result (λ taken. IfSome taken (λ t. ParsesAt content from.now at t.1 t.0)) }
    ensures none { IfOk result (λ taken. IfNone taken (StandsNowhere content from.now at)) }
{
    let Some((start, end)) = take_body(from, at) else {
        return Ok(None);
    };
    let Some((value, behind)) = Value::take(alloc, from, start)? else {
        return Ok(None);
    };
    if behind != end {
        return Ok(None);
    }
    Ok(Some((value, end)))
}
