// Texts by lines: what stands before the first LF and after it, a line without its CR, and the lines of a list.
ghost use Rattle.std.specs.Prelude.{◌≡◌, ◌<◌, ◌∷◌, [], length, IfSome, IfNone};
ghost use Rattle.meaning_texts.specs.Lines.{cut_lines, without_cr, lines_of};
ghost use Rattle.odin_bytes.specs.Words.{IsFirstLine};

use memchr::memchr;

/// The first line without its LF, and what stands after that. A text without an LF has none.
pub fn first_line(text: &[u8]) -> Option<(&[u8], &[u8])>
    ensures some { IfSome result (λ parts. IsFirstLine text.now parts.0.now parts.1.now) }
    ensures shorter { IfSome result (λ parts. length parts.1.now < length text.now) }
    ensures none { IfNone result (cut_lines text.now ≡ record { full = []; last = text.now }) }
{
    let at = memchr(b'\n', text)?;
    Some((&text[..at], &text[at + 1..]))
}

/// The line without one CR at its end.
pub fn drop_cr(line: &[u8]) -> &[u8]
    ensures { result.now ≡ without_cr line.now }
{
    line.strip_suffix(b"\r").unwrap_or(line)
}

/// The first line without its end, and what stands after that. An empty text has none, and a last line needs no LF.
pub fn next_line(text: &[u8]) -> Option<(&[u8], &[u8])>
    ensures some { IfSome result (λ cut. lines_of text.now ≡ cut.0.now ∷ lines_of cut.1.now) }
    ensures shorter { IfSome result (λ cut. length cut.1.now < length text.now) }
    ensures none { IfNone result (lines_of text.now ≡ []) }
{
    if text.is_empty() {
        return None;
    }
    match first_line(text) {
        Some((line, behind)) => Some((drop_cr(line), behind)),
        None => Some((drop_cr(text), &[])),
    }
}
