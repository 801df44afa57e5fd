// The file `call`: what a tool is told about its call.
ghost use Rattle.std.specs.Prelude.{◌≡◌, ◌++◌, map, OnOk, IfOk};
ghost use Rattle.std.specs.List.{flat_map};
ghost use Rattle.meaning_texts.specs.Lines.{with_lf};
ghost use Rattle.meaning_calls.specs.Jobs as meaning;

use crate::file_names::write_body_name;
use object_values::{Bytes, Call, CallPart, Memory, ParamValue, Text};
use odin_bytes::write_number;
use std::alloc::Global;

fn write_tool(call: &Call, out: &mut Bytes) -> Result<(), Memory>
    ensures { OnOk result (out.new ≡ out.old ++ with_lf (meaning.tool_line call.now)) }
{
    out.extend_from_slice(b"tool ")?;
    out.extend_from_slice(call.tool.as_slice())?;
    out.push(b' ')?;
    out.extend_from_slice(call.version.as_slice())?;
    out.push(b'\n')
}

fn write_param(param: &ParamValue, out: &mut Bytes) -> Result<(), Memory>
    ensures { OnOk result (out.new ≡ out.old ++ with_lf (meaning.param_line param.now)) }
{
    out.extend_from_slice(b"param ")?;
    out.extend_from_slice(param.param.as_slice())?;
    out.push(b' ')?;
    out.extend_from_slice(param.value.as_slice())?;
    out.push(b'\n')
}

fn write_part_file(number: u64, body: &Option<Text>, out: &mut Bytes) -> Result<(), Memory>
    ensures { OnOk result (out.new ≡ out.old ++ meaning.part_file number body.now) }
{
    match body {
        Some(_) => write_body_name(number, out),
        None => out.push(b'-'),
    }
}

fn write_part(number: u64, part: &CallPart, out: &mut Bytes) -> Result<(), Memory>
    ensures { OnOk result (out.new ≡ out.old ++ with_lf (meaning.part_line number part.now)) }
{
    out.extend_from_slice(b"part ")?;
    write_number(u64::from(part.slot), out)?;
    out.push(b' ')?;
    write_part_file(number, &part.body, out)?;
    out.push(b' ')?;
    out.extend_from_slice(part.label.as_slice())?;
    out.push(b'\n')
}

fn write_out(name: &[u8], out: &mut Bytes) -> Result<(), Memory>
    ensures { OnOk result (out.new ≡ out.old ++ with_lf (meaning.out_line name.now)) }
{
    out.extend_from_slice(b"out out.")?;
    out.extend_from_slice(name)?;
    out.push(b'\n')
}

fn write_params(params: &[ParamValue], out: &mut Bytes) -> Result<(), Memory>
    ensures { OnOk result (out.new ≡ out.old ++
        flat_map with_lf (map meaning.param_line params.now)) }
{
    for param in params {
        write_param(param, out)?;
    }
    Ok(())
}

fn write_parts(parts: &[CallPart], out: &mut Bytes) -> Result<(), Memory>
    ensures { OnOk result (out.new ≡ out.old ++ flat_map with_lf (meaning.part_lines 1 parts.now)) }
{
    for (place, part) in parts.iter().enumerate() {
        write_part(place as u64 + 1, part, out)?;
    }
    Ok(())
}

fn write_outs(names: &[Bytes], out: &mut Bytes) -> Result<(), Memory>
    ensures { OnOk result (out.new ≡ out.old ++ flat_map with_lf (map meaning.out_line names.now)) }
{
    for name in names {
        write_out(name.as_slice(), out)?;
    }
    Ok(())
}

pub(crate) fn call_text(alloc: Global, call: &Call) -> Result<Bytes, Memory>
    ensures { IfOk result (λ text. text ≡ meaning.call_text call.now) }
{
    let mut text = Bytes::from_slice(alloc, b"odin 1\n")?;
    write_tool(call, &mut text)?;
    write_params(call.params.as_slice(), &mut text)?;
    write_parts(call.parts.as_slice(), &mut text)?;
    write_outs(call.outs.as_slice(), &mut text)?;
    Ok(text)
}
