// What `cc` makes of its inputs: an object and warnings.
ghost use Rattle.std.specs.Prelude.{◌≡◌, ◌++◌, codes, OnOk};
ghost use Rattle.std.specs.List.{list_any};
ghost use Rattle.odin_memory.specs.Inputs.{lines, begins_with};
ghost use Rattle.odin_memory.specs.Programs as meaning;

use crate::inputs::{body_of, is_input_name};
use crate::text::{next_line, put_line};
use object_values::{Bytes, FileBody, Memory};

fn put_compiled(line: &[u8], object: &mut Bytes) -> Result<(), Memory>
    ensures { OnOk result (object.new ≡ object.old ++ meaning.compiled line.now) }
{
    let passed_over = line.starts_with(b"include ")
        || line.starts_with(b"//")
        || line.starts_with(b"!");
    if passed_over {
        Ok(())
    } else {
        put_line(line, object)
    }
}

fn put_warned(line: &[u8], warnings: &mut Bytes) -> Result<(), Memory>
    ensures { OnOk result (warnings.new ≡ warnings.old ++ meaning.warned line.now) }
{
    match line.strip_prefix(b"//!") {
        Some(warning) => put_line(warning, warnings),
        None => Ok(()),
    }
}

fn compile_text(text: &[u8], object: &mut Bytes, warnings: &mut Bytes) -> Result<(), Memory>
    ensures object { OnOk result (object.new ≡ object.old ++ meaning.compiled_text text.now) }
    ensures warnings { OnOk result (warnings.new ≡ warnings.old ++ meaning.warned_text text.now) }
{
    let mut rest = text;
    'lines: while let Some((line, behind)) = next_line(rest) {
        put_compiled(line, object)?;
        put_warned(line, warnings)?;
        rest = behind;
    }
    Ok(())
}

// Compiles the file, if it is an input.
fn compile_file(file: &FileBody, object: &mut Bytes, warnings: &mut Bytes) -> Result<(), Memory>
    ensures object { OnOk result (object.new ≡ object.old ++ meaning.compiled_file file.now) }
    ensures warnings { OnOk result (warnings.new ≡ warnings.old ++ meaning.warned_file file.now) }
{
    if is_input_name(file.name.as_slice()) {
        compile_text(file.body.as_slice(), object, warnings)
    } else {
        Ok(())
    }
}

pub(crate) fn compile_files(
    files: &[FileBody],
    object: &mut Bytes,
    warnings: &mut Bytes,
) -> Result<(), Memory>
    ensures object { OnOk result (object.new ≡ object.old ++ meaning.compiled_files files.now) }
    ensures warnings { OnOk result (warnings.new ≡ warnings.old ++ meaning.cc_warnings files.now) }
{
    for file in files {
        compile_file(file, object, warnings)?;
    }
    Ok(())
}

// Whether a line of the file `call` names the parameter.
fn has_debug(call: &[u8]) -> bool
    ensures { result ≡ list_any (begins_with (codes "param debug ")) (lines call.now) }
{
    let mut rest = call;
    'lines: while let Some((line, behind)) = next_line(rest) {
        if line.starts_with(b"param debug ") {
            return true;
        }
        rest = behind;
    }
    false
}

pub(crate) fn put_debug(files: &[FileBody], object: &mut Bytes) -> Result<(), Memory>
    ensures { OnOk result (object.new ≡ object.old ++ meaning.debug_of files.now) }
{
    if has_debug(body_of(files, b"call")) {
        put_line(b"debug", object)
    } else {
        Ok(())
    }
}
