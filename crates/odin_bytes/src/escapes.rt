// Escaped texts.
ghost use Rattle.std.specs.Prelude.{◌≡◌, ◌≢◌, ◌++◌, ◌<◌, ◌≤◌, ℕ, length, take, not, position, OnOk, OnErr, IfOk, IfSome, IfNone, IsFalse};
ghost use Rattle.meaning_texts.specs.Escapes.{hexadecimal, escaped_byte, escaped};
ghost use Rattle.odin_bytes.specs.Spellings.{is_plain, BeginsWithNoEscape, SpellsNothing};

use object_values::{Bytes, Memory};
use std::alloc::Global;

/// Adds the one spelling of the text at the end.
pub fn escape(text: &[u8], out: &mut Bytes) -> Result<(), Memory>
    ensures ok { OnOk result (out.new ≡ out.old ++ escaped text.now) }
    ensures err { OnErr result (out.new ≡ out.old) }
{
    let before = out.len();
    let put = put_escaped(text, out);
    if put.is_err() {
        out.truncate(before);
    }
    put
}

/// The text that has this spelling, where one has.
pub fn unescape(alloc: Global, spelling: &[u8]) -> Result<Option<Bytes>, Memory>
    ensures some { IfOk result (λ read. IfSome read (λ text. spelling.now ≡ escaped text)) }
    ensures none { IfOk result (λ read. IfNone read (SpellsNothing spelling.now)) }
{
    let mut text = Bytes::new(alloc);
    let mut rest = spelling;
    'runs: while let Some(place) = run_end(rest) {
        text.extend_from_slice(&rest[..place])?;
        let Some((byte, length)) = read_escape(&rest[place..]) else {
            return Ok(None);
        };
        text.push(byte)?;
        rest = &rest[place + length..];
    }
    text.extend_from_slice(rest)?;
    Ok(Some(text))
}

// Leaves what it began at want of memory.
fn put_escaped(text: &[u8], out: &mut Bytes) -> Result<(), Memory>
    ensures ok { OnOk result (out.new ≡ out.old ++ escaped text.now) }
    ensures err { OnErr result (take (length out.old) out.new ≡ out.old) }
{
    let mut rest = text;
    'runs: while let Some(place) = run_end(rest) {
        out.extend_from_slice(&rest[..place])?;
        let behind = &rest[place..];
        put_escape(behind[0], out)?;
        rest = &behind[1..];
    }
    out.extend_from_slice(rest)
}

// Where the bytes that stand for themselves end.
fn run_end(text: &[u8]) -> Option<usize>
    ensures { result ≡ position (λ b. not (is_plain b)) text.now }
{
    text.iter().position(|byte| !stands_plain(*byte))
}

fn stands_plain(byte: u8) -> bool
    ensures { result ≡ is_plain byte }
{
    matches!(byte, b' '..=b'~') && byte != b'\\'
}

// The escape of a byte that doesn't stand for itself.
fn put_escape(byte: u8, out: &mut Bytes) -> Result<(), Memory>
    requires { IsFalse (is_plain byte) }
    ensures ok { OnOk result (out.new ≡ out.old ++ escaped_byte byte) }
    ensures err { OnErr result (out.new ≡ out.old) }
{
    if byte == b'\\' {
        return out.extend_from_slice(b"\\\\");
    }
    let digits = [b'\\', b'x', digit(byte / 16), digit(byte % 16)];
    out.extend_from_slice(&digits)
}

fn digit(value: u8) -> u8
    requires { value < 16 }
    ensures { result ≡ hexadecimal value }
{
    if value < 10 {
        b'0' + value
    } else {
        b'a' + (value - 10)
    }
}

// The byte that a text begins with the escape of, and how long that is.
fn read_escape(text: &[u8]) -> Option<(u8, usize)>
    requires { position (λ b. not (is_plain b)) text.now ≡ Some 0 }
    ensures some { IfSome result (λ read. take read.1 text.now ≡ escaped_byte read.0) }
    ensures length { IfSome result (λ read. (0 < read.1) × (read.1 ≤ length text.now)) }
    ensures byte { IfSome result (λ read. read.0 < 256) }
    ensures none { IfNone result (BeginsWithNoEscape text.now) }
{
    match text {
        [b'\\', b'\\', ..] => Some((b'\\', 2)),
        [b'\\', b'x', high, low, ..] => {
            let byte = value_of(*high)? * 16 + value_of(*low)?;
            if matches!(byte, b' '..=b'~') {
                return None;
            }
            Some((byte, 4))
        }
        _ => None,
    }
}

// The value of a hexadecimal digit in lower case.
fn value_of(digit: u8) -> Option<u8>
    ensures some { IfSome result (λ value. digit ≡ hexadecimal value) }
    ensures small { IfSome result (λ value. value < 16) }
    ensures none { IfNone result ((value : ℕ) → value < 16 → digit ≢ hexadecimal value) }
{
    match digit {
        b'0'..=b'9' => Some(digit - b'0'),
        b'a'..=b'f' => Some(digit - b'a' + 10),
        _ => None,
    }
}
