// The directive of `cc`: the first line of its first input that begins with `!`.
ghost use Rattle.std.specs.Prelude.{◌≡◌};
ghost use Rattle.odin_memory.specs.Inputs.{lines};
ghost use Rattle.odin_memory.specs.Programs as meaning;

use crate::inputs::{FIRST_INPUT, body_of};
use crate::text::next_line;
use object_values::{End, FileBody};
use odin_bytes::read_number;

fn first_directive(text: &[u8]) -> &[u8]
    ensures { result.now ≡ meaning.first_directive (lines text.now) }
{
    let mut rest = text;
    'lines: while let Some((line, behind)) = next_line(rest) {
        if line.starts_with(b"!") {
            return line;
        }
        rest = behind;
    }
    &[]
}

/// The directive, or nothing.
pub(crate) fn directive(files: &[FileBody]) -> &[u8]
    ensures { result.now ≡ meaning.directive files.now }
{
    first_directive(body_of(files, FIRST_INPUT))
}

// The number of at most 255 that the text is, or else 0.
fn status_of(text: &[u8]) -> u8
    ensures { result ≡ meaning.number_below 256 text.now }
{
    match read_number(text) {
        Some(status) if status <= 255 => status as u8,
        _ => 0,
    }
}

fn exit_status(line: &[u8]) -> u8
    ensures { result ≡ meaning.directive_status line.now }
{
    match line.strip_prefix(b"!exit ") {
        Some(text) => status_of(text),
        None => 0,
    }
}

/// How a tool with this directive ends.
pub(crate) fn end_of(line: &[u8]) -> End
    ensures { result ≡ meaning.end_of line.now }
{
    if line == b"!signal".as_slice() {
        End::Signal
    } else {
        End::Exit(exit_status(line))
    }
}

/// Whether a tool with this directive leaves its output.
pub(crate) fn leaves_output(line: &[u8]) -> bool
    ensures { result ≡ meaning.leaves_output line.now }
{
    line != b"!none".as_slice()
}
