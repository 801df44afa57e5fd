// The fields of records. A `put_` call adds a field at the end; a `take_` call reads the one at a place, and says where it ends.
ghost use Rattle.std.specs.Prelude.{◌≡◌, ◌++◌, ◌+◌, ◌^◌, ◌<◌, length, OnOk, OnErr, IfSome, IfNone};
ghost use Rattle.odin_bytes.specs.Fields.{u8_field, u32_field, u64_field, bytes_field, IsFieldAt, IsBodyAt, HasNoBytesAt};

use byteorder::{BigEndian, ByteOrder};
use object_values::{Bytes, Memory};

pub fn put_u8(out: &mut Bytes, n: u8) -> Result<(), Memory>
    ensures ok { OnOk result (out.new ≡ out.old ++ u8_field n) }
    ensures err { OnErr result (out.new ≡ out.old) }
{
    out.push(n)
}

pub fn put_u32(out: &mut Bytes, n: u32) -> Result<(), Memory>
    ensures ok { OnOk result (out.new ≡ out.old ++ u32_field n) }
    ensures err { OnErr result (out.new ≡ out.old) }
{
    let mut field = [0; 4];
    BigEndian::write_u32(&mut field, n);
    out.extend_from_slice(&field)
}

pub fn put_u64(out: &mut Bytes, n: u64) -> Result<(), Memory>
    ensures ok { OnOk result (out.new ≡ out.old ++ u64_field n) }
    ensures err { OnErr result (out.new ≡ out.old) }
{
    let mut field = [0; 8];
    BigEndian::write_u64(&mut field, n);
    out.extend_from_slice(&field)
}

/// The length of the body, and the body.
pub fn put_bytes(out: &mut Bytes, body: &[u8]) -> Result<(), Memory>
    requires { length body.now < 2 ^ 32 }
    ensures ok { OnOk result (out.new ≡ out.old ++ bytes_field body.now) }
    ensures err { OnErr result (out.new ≡ out.old) }
{
    let before = out.len();
    put_u32(out, body.len() as u32)?;
    let put = out.extend_from_slice(body);
    if put.is_err() {
        out.truncate(before);
    }
    put
}

pub fn take_u8(from: &[u8], at: usize) -> Option<(u8, usize)>
    ensures some { IfSome result (λ taken. IsFieldAt from.now at taken.1 (u8_field taken.0)) }
    ensures fits { IfSome result (λ taken. taken.0 < 256) }
    ensures end { IfSome result (λ taken. taken.1 ≡ at + 1) }
    ensures none { IfNone result (length from.now < at + 1) }
{
    let number = *from.get(at)?;
    Some((number, at + 1))
}

pub fn take_u32(from: &[u8], at: usize) -> Option<(u32, usize)>
    ensures some { IfSome result (λ taken. IsFieldAt from.now at taken.1 (u32_field taken.0)) }
    ensures fits { IfSome result (λ taken. taken.0 < 2 ^ 32) }
    ensures end { IfSome result (λ taken. taken.1 ≡ at + 4) }
    ensures none { IfNone result (length from.now < at + 4) }
{
    let field = from.get(at..)?.get(..4)?;
    Some((BigEndian::read_u32(field), at + 4))
}

pub fn take_u64(from: &[u8], at: usize) -> Option<(u64, usize)>
    ensures some { IfSome result (λ taken. IsFieldAt from.now at taken.1 (u64_field taken.0)) }
    ensures fits { IfSome result (λ taken. taken.0 < 2 ^ 64) }
    ensures end { IfSome result (λ taken. taken.1 ≡ at + 8) }
    ensures none { IfNone result (length from.now < at + 8) }
{
    let field = from.get(at..)?.get(..8)?;
    Some((BigEndian::read_u64(field), at + 8))
}

/// Where the body of a field of bytes starts, and where it ends.
pub fn take_bytes(from: &[u8], at: usize) -> Option<(usize, usize)>
    ensures some { IfSome result (λ taken. IsBodyAt from.now at taken.0 taken.1) }
    ensures start { IfSome result (λ taken. taken.0 ≡ at + 4) }
    ensures none { IfNone result (HasNoBytesAt from.now at) }
{
    let (length, start) = take_u32(from, at)?;
    let end = start.checked_add(length as usize)?;
    if end > from.len() {
        return None;
    }
    Some((start, end))
}
