// Numbers in texts: decimal digits without a leading zero.
ghost use Rattle.std.specs.Prelude.{◌≡◌, ◌++◌, ◌^◌, ◌<◌, decimal, OnOk, OnErr, IfSome, IfNone};
ghost use Rattle.odin_bytes.specs.Spellings.{IsNoNumber};

use itoa::Buffer;
use object_values::{Bytes, Memory};

/// The number whose digits are the text.
pub fn read_number(text: &[u8]) -> Option<u64>
    ensures some { IfSome result (λ number. text.now ≡ decimal number) }
    ensures small { IfSome result (λ number. number < 2 ^ 64) }
    ensures none { IfNone result (IsNoNumber text.now) }
{
    let Ok(digits) = std::str::from_utf8(text) else {
        return None;
    };
    let Ok(number) = digits.parse() else {
        return None;
    };
    let mut spelling = Buffer::new();
    if spelling.format(number).as_bytes() == text {
        Some(number)
    } else {
        None
    }
}

/// Adds the digits of the number at the end.
pub fn write_number(number: u64, out: &mut Bytes) -> Result<(), Memory>
    ensures ok { OnOk result (out.new ≡ out.old ++ decimal number) }
    ensures err { OnErr result (out.new ≡ out.old) }
{
    let mut digits = Buffer::new();
    out.extend_from_slice(digits.format(number).as_bytes())
}
