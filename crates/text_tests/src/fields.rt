// Fields of records, written and read.
use object_values::{Bytes, Memory};
use odin_bytes::{put_bytes, put_u8, put_u32, put_u64, take_bytes, take_u8, take_u32, take_u64};
use std::test::Fail;

const FIELDS: &[u8] = b"\x05\x01\x02\x03\x04\x01\x02\x03\x04\x05\x06\x07\x08\x00\x00\x00\x02ab";

// Writes the fields 5, 0x0102_0304, 0x0102_0304_0506_0708 and `ab`.
fn put_fields(out: &mut Bytes) -> Result<(), Memory> {
    put_u8(out, 5)?;
    put_u32(out, 0x0102_0304)?;
    put_u64(out, 0x0102_0304_0506_0708)?;
    put_bytes(out, b"ab")
}

#[test]
fn fields_are_written_highest_byte_first(rt: HostRuntime) -> Result<(), Fail> {
    let mut out = Bytes::new(rt.alloc());
    put_fields(&mut out)?;
    assert!(rt; out.as_slice() == FIELDS);
    Ok(())
}

// Whether each field is read, with the place after it.
fn are_read(fields: &[u8]) -> bool {
    take_u8(fields, 0) == Some((5, 1))
        && take_u32(fields, 1) == Some((0x0102_0304, 5))
        && take_u64(fields, 5) == Some((0x0102_0304_0506_0708, 13))
        && take_bytes(fields, 13) == Some((17, 19))
}

// Whether no field is read that goes past the end.
fn are_refused(fields: &[u8]) -> bool {
    take_u32(fields, 16).is_none()
        && take_u64(fields, usize::MAX).is_none()
        && take_u8(fields, 19).is_none()
}

#[test]
fn fields_are_read_highest_byte_first(rt: HostRuntime) {
    assert!(rt; are_read(FIELDS));
    assert!(rt; are_refused(FIELDS));
    assert!(rt; take_bytes(&FIELDS[..18], 13).is_none());
}
