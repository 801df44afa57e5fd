// Texts as a person is shown them: a definition tells which bytes stay, and the others are spelled.
ghost use Rattle.std.specs.Prelude.{◌≡◌, ◌≤◌, ◌<◌, ◌++◌, OnOk, slice_index};
ghost use Rattle.meaning_texts.specs.Escapes.{hexadecimal};
ghost use Rattle.shown_texts.specs.Shown as meaning;

use object_values::{Bytes, Memory};

/// A control, a separator of lines, or a character that turns the direction of what is shown.
fn moves(code: u32) -> bool
    ensures { result ≡ meaning.moves code }
{
    matches!(
        code,
        0..=0x1F
            | 0x7F..=0x9F
            | 0x61C
            | 0x200E..=0x200F
            | 0x2028..=0x202E
            | 0x2066..=0x2069
    )
}

fn continues(byte: u8) -> bool
    ensures { result ≡ meaning.continues byte }
{
    matches!(byte, 128..=191)
}

fn one_stays(a: u8) -> bool
    ensures { result ≡ meaning.one_stays a }
{
    a < 128 && !moves(u32::from(a)) && a != b'\\'
}

fn two_stay(a: u8, b: u8) -> bool
    ensures { result ≡ meaning.two_stay a b }
{
    if !matches!(a, 192..=223) || !continues(b) {
        return false;
    }
    let code = 64 * u32::from(a - 192) + u32::from(b - 128);
    128 <= code && !moves(code)
}

fn three_stay(a: u8, b: u8, c: u8) -> bool
    ensures { result ≡ meaning.three_stay a b c }
{
    if !matches!(a, 224..=239) || !continues(b) || !continues(c) {
        return false;
    }
    let code = 64 * (64 * u32::from(a - 224) + u32::from(b - 128)) + u32::from(c - 128);
    2048 <= code && !matches!(code, 0xD800..=0xDFFF) && !moves(code)
}

fn four_stay(a: u8, b: u8, c: u8, d: u8) -> bool
    ensures { result ≡ meaning.four_stay a b c d }
{
    if !matches!(a, 240..=247) || !continues(b) || !continues(c) || !continues(d) {
        return false;
    }
    let high = 64 * u32::from(a - 240) + u32::from(b - 128);
    let code = 64 * (64 * high + u32::from(c - 128)) + u32::from(d - 128);
    matches!(code, 0x10000..=0x10FFFF)
}

/// The byte at a place, and 0 after the end.
fn byte_at(text: &[u8], place: usize) -> u8
    ensures { result ≡ slice_index text.now place }
{
    match text.get(place) {
        Some(byte) => *byte,
        None => 0,
    }
}

fn size_of(a: u8, b: u8, c: u8, d: u8) -> u8
    ensures { result ≡ meaning.size_of a b c d }
{
    if one_stays(a) {
        1
    } else if two_stay(a, b) {
        2
    } else if three_stay(a, b, c) {
        3
    } else if four_stay(a, b, c, d) {
        4
    } else {
        0
    }
}

/// How many of the first bytes are a character that stays.
fn staying_size(text: &[u8]) -> u8
    ensures { result ≡ meaning.staying_size text.now }
{
    size_of(
        byte_at(text, 0),
        byte_at(text, 1),
        byte_at(text, 2),
        byte_at(text, 3),
    )
}

fn stay_count(left: u8, text: &[u8]) -> u8
    ensures { result ≡ meaning.stay_count left text.now }
{
    if left == 0 { staying_size(text) } else { left }
}

fn digit(value: u8) -> u8
    requires { value < 16 }
    ensures { result ≡ hexadecimal value }
{
    if value < 10 {
        b'0' + value
    } else {
        b'a' + (value - 10)
    }
}

/// Adds the spelling of a byte at the end.
fn write_spelling(byte: u8, out: &mut Bytes) -> Result<(), Memory>
    ensures { OnOk result (out.new ≡ out.old ++ meaning.spelling byte) }
{
    match byte {
        b'\\' => out.extend_from_slice(b"\\\\"),
        b'\t' => out.extend_from_slice(b"\\t"),
        _ => out.extend_from_slice(&[b'\\', b'x', digit(byte / 16), digit(byte % 16)]),
    }
}

fn write_shown_byte(left: u8, byte: u8, out: &mut Bytes) -> Result<(), Memory>
    ensures { OnOk result (out.new ≡ out.old ++ meaning.shown_byte left byte) }
{
    if left == 0 {
        write_spelling(byte, out)
    } else {
        out.push(byte)
    }
}

/// Adds the text at the end, as a person is shown it. Where memory is wanted, it leaves what it began.
pub fn write_shown(text: &[u8], out: &mut Bytes) -> Result<(), Memory>
    ensures { OnOk result (out.new ≡ out.old ++ meaning.shown text.now) }
{
    // How many bytes of a character are left, as in the definition.
    let mut left = 0;
    for (place, byte) in text.iter().enumerate() {
        left = stay_count(left, &text[place..]);
        write_shown_byte(left, *byte, out)?;
        left = left.saturating_sub(1);
    }
    Ok(())
}
