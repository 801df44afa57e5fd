// The names of the sources of a load, and their texts.
ghost use Rattle.std.specs.Prelude.{◌≡◌, ◌<◌, ◌++◌, decimal, IfOk, OnOk};
ghost use Rattle.load_session.specs.Session as load;

use object_values::{Bytes, Memory};
use odin_bytes::write_number;
use std::alloc::Global;

/// How many headers there are.
pub(crate) const HEADERS: u32 = 12;

/// The name of the source that lists the units.
pub(crate) const LIST_NAME: &[u8] = b"m.sm";

/// The text of each ask.
pub(crate) const ASKED: &[u8] = b"m.sm:exe";

// Adds a number between two texts at the end.
fn put_numbered(front: &[u8], number: u32, back: &[u8], out: &mut Bytes) -> Result<(), Memory>
    ensures { OnOk result (out.new ≡ out.old ++ (front.now ++ decimal number ++ back.now)) }
{
    out.extend_from_slice(front)?;
    write_number(u64::from(number), out)?;
    out.extend_from_slice(back)
}

// A number between two texts.
fn numbered(alloc: Global, front: &[u8], number: u32, back: &[u8]) -> Result<Bytes, Memory>
    ensures { IfOk result (λ text. text ≡ front.now ++ decimal number ++ back.now) }
{
    let mut text = Bytes::new(alloc);
    put_numbered(front, number, back, &mut text)?;
    Ok(text)
}

pub(crate) fn header_name(alloc: Global, number: u32) -> Result<Bytes, Memory>
    ensures { IfOk result (λ text. text ≡ load.header_name number) }
{
    numbered(alloc, b"h", number, b".h")
}

/// The text of a header that gives this value.
pub(crate) fn header_text(alloc: Global, number: u32, value: u32) -> Result<Bytes, Memory>
    ensures { IfOk result (λ text. text ≡ load.header_text number value) }
{
    let mut text = numbered(alloc, b"w", number, b"=")?;
    put_numbered(b"", value, b"\n", &mut text)?;
    Ok(text)
}

pub(crate) fn unit_name(alloc: Global, number: u32) -> Result<Bytes, Memory>
    ensures { IfOk result (λ text. text ≡ load.unit_name number) }
{
    numbered(alloc, b"u", number, b".c")
}

/// The text of a unit. The units include the headers in turn.
pub(crate) fn unit_text(alloc: Global, number: u32) -> Result<Bytes, Memory>
    requires { 0 < number }
    ensures { IfOk result (λ text. text ≡ load.unit_text number) }
{
    let header = (number - 1) % HEADERS + 1;
    let mut text = numbered(alloc, b"include h", header, b".h\n")?;
    put_numbered(b"v", number, b"=1\n", &mut text)?;
    Ok(text)
}

/// The names of so many units, each in a line.
pub(crate) fn list_text(alloc: Global, units: u32) -> Result<Bytes, Memory>
    ensures { IfOk result (λ text. text ≡ load.list_text units) }
{
    let mut text = Bytes::new(alloc);
    for before in 0..units {
        put_numbered(b"u", before + 1, b".c\n", &mut text)?;
    }
    Ok(text)
}
