// What stands at a place of a text: a byte, a number, and where a body starts and ends.
ghost use Rattle.std.specs.Prelude.{◌≡◌, ◌+◌, ◌^◌, ◌<◌, length, IfSome, IfNone};
ghost use Rattle.meaning_records.specs.Forms.{bytes, StandsNowhere};
ghost use Rattle.odin_bytes.specs.Fields.{IsFieldAt, u8_field, u32_field};
ghost use Rattle.store_records.specs.Bodies.{HasBody};

use object_values::Text;

/// The byte at a place, and the place after it.
pub fn take_u8(from: &Text, at: usize) -> Option<(u8, usize)>
    ensures some { IfSome result (λ taken. IsFieldAt from.now at taken.1 (u8_field taken.0)) }
    ensures fits { IfSome result (λ taken. taken.0 < 256) }
    ensures end { IfSome result (λ taken. taken.1 ≡ at + 1) }
    ensures none { IfNone result (length from.now < at + 1) }
{
    odin_bytes::take_u8(from.as_slice(), at)
}

/// The number in the four bytes from a place on, and the place after them.
pub fn take_u32(from: &Text, at: usize) -> Option<(u32, usize)>
    ensures some { IfSome result (λ taken. IsFieldAt from.now at taken.1 (u32_field taken.0)) }
    ensures fits { IfSome result (λ taken. taken.0 < 2 ^ 32) }
    ensures end { IfSome result (λ taken. taken.1 ≡ at + 4) }
    ensures none { IfNone result (length from.now < at + 4) }
{
    odin_bytes::take_u32(from.as_slice(), at)
}

/// Where the body of a field of bytes starts, and where it ends.
pub fn take_body(from: &Text, at: usize) -> Option<(usize, usize)>
    ensures some { IfSome result (λ body. HasBody from.now at body.0 body.1) }
    ensures none { IfNone result (StandsNowhere bytes from.now at) }
{
    let (length, start) = take_u32(from, at)?;
    if from.len() - start < length as usize {
        return None;
    }
    Some((start, start + length as usize))
}
