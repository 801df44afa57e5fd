// Texts by lines.
ghost use Rattle.std.specs.Prelude.{◌≡◌, ◌<◌, ◌++◌, ◌∷◌, [], length, IfSome, IfNone, OnOk};
ghost use Rattle.meaning_texts.specs.Lines.{with_lf};
ghost use Rattle.odin_memory.specs.Inputs.{lines};

use object_values::{Bytes, Memory};
use odin_bytes::first_line;

/// The first line without its LF, and what stands after it. An empty text has none.
pub(crate) fn next_line(text: &[u8]) -> Option<(&[u8], &[u8])>
    ensures some { IfSome result (λ parts. lines text.now ≡ parts.0.now ∷ lines parts.1.now) }
    ensures shorter { IfSome result (λ parts. length parts.1.now < length text.now) }
    ensures none { IfNone result (lines text.now ≡ []) }
{
    if text.is_empty() {
        return None;
    }
    match first_line(text) {
        Some((line, behind)) => Some((line, behind)),
        None => Some((text, &text[text.len()..])),
    }
}

/// Adds the line and an LF.
pub(crate) fn put_line(line: &[u8], out: &mut Bytes) -> Result<(), Memory>
    ensures { OnOk result (out.new ≡ out.old ++ with_lf line.now) }
{
    out.extend_from_slice(line)?;
    out.push(b'\n')
}
