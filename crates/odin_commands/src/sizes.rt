// Numbers on lines, and bodies of a known size.
ghost use Rattle.std.specs.Prelude.{◌≡◌, ℕ, List, ◌++◌, ◌≢◌, length, decimal, IfSome, IfNone};
ghost use Rattle.meaning_texts.specs.Lines.{with_lf};
ghost use Rattle.meaning_commands.specs.Formed.{IsSmall};
ghost use Rattle.odin_commands.specs.Reading.{ReadsFront};

use odin_bytes::{cut_at, read_number};

/// The number on the first line.
pub(crate) fn cut_number(text: &[u8]) -> Option<(u64, &[u8])>
    ensures { ReadsFront (λ number. with_lf (decimal number)) IsSmall text.now result }
{
    let (digits, behind) = cut_at(b'\n', text)?;
    Some((read_number(digits)?, behind))
}

/// So many bytes, and what stands after the LF that follows them.
pub(crate) fn cut_body(text: &[u8], size: u64) -> Option<(&[u8], &[u8])>
    ensures some { IfSome result (λ cut. text.now ≡ with_lf cut.0.now ++ cut.1.now) }
    ensures size { IfSome result (λ cut. length cut.0.now ≡ size) }
    ensures none { IfNone result ((body behind : List ℕ) → length body ≡ size →
        text.now ≢ with_lf body ++ behind) }
{
    let size = size as usize;
    let body = text.get(..size)?;
    Some((body, text[size..].strip_prefix(b"\n")?))
}
