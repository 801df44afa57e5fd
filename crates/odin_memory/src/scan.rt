// What `scan` makes: the names in the include lines of the first input.
ghost use Rattle.std.specs.Prelude.{◌≡◌, ◌++◌, OnOk};
ghost use Rattle.std.specs.List.{flat_map};
ghost use Rattle.odin_memory.specs.Inputs.{lines};
ghost use Rattle.odin_memory.specs.Programs as meaning;

use crate::inputs::{FIRST_INPUT, body_of};
use crate::text::{next_line, put_line};
use object_values::{Bytes, FileBody, Memory};

fn put_included(line: &[u8], out: &mut Bytes) -> Result<(), Memory>
    ensures { OnOk result (out.new ≡ out.old ++ meaning.included line.now) }
{
    match line.strip_prefix(b"include ") {
        Some(name) => put_line(name, out),
        None => Ok(()),
    }
}

fn put_all_included(text: &[u8], out: &mut Bytes) -> Result<(), Memory>
    ensures { OnOk result (out.new ≡ out.old ++ flat_map meaning.included (lines text.now)) }
{
    let mut rest = text;
    'lines: while let Some((line, behind)) = next_line(rest) {
        put_included(line, out)?;
        rest = behind;
    }
    Ok(())
}

pub(crate) fn put_scanned(files: &[FileBody], out: &mut Bytes) -> Result<(), Memory>
    ensures { OnOk result (out.new ≡ out.old ++ meaning.scan_output files.now) }
{
    put_all_included(body_of(files, FIRST_INPUT), out)
}
