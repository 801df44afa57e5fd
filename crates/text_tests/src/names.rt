// Names, and what is no name.
use object_values::{Bytes, Copied, Memory, same};
use odin_bytes::{Name, NameFault};
use std::alloc::Global;

// Whether the name and its copy have this text.
fn has_text(alloc: Global, name: &Name, text: &[u8]) -> Result<bool, NameFault> {
    let copy = name.copy(alloc)?;
    Ok(name.as_slice() == text && same(&copy, name))
}

// Whether the text is a name, and the name and its bytes have this text.
fn is_read(alloc: Global, text: &[u8]) -> Result<bool, NameFault> {
    let name = Name::read(alloc, text)?;
    Ok(has_text(alloc, &name, text)? && name.into_bytes().as_slice() == text)
}

const NAMES: &[&[u8]] = &[b"a.c", b"lib/B-2_x", b"0"];

// Texts that are no names, and why.
const FAULTS: &[(&[u8], NameFault)] = &[
    (b"", NameFault::Empty),
    (b"a?c", NameFault::BadByte(1)),
    (b"a b\n", NameFault::BadByte(1)),
    (b"\xc3\xa4", NameFault::BadByte(0)),
];

#[test]
fn reads_names_and_tells_faults(rt: HostRuntime) {
    for text in NAMES {
        assert!(rt; is_read(rt.alloc(), text) == Ok(true));
    }
    for (text, fault) in FAULTS {
        assert!(rt; Name::read(rt.alloc(), text).err() == Some(*fault));
    }
}

// So many bytes, each the same.
fn long(alloc: Global, byte: u8, count: usize) -> Result<Bytes, Memory> {
    Ok(Bytes::from_vec(vec![in alloc; byte; count]?))
}

// Whether so many letters are a name.
fn is_long_read(alloc: Global, count: usize) -> Result<bool, NameFault> {
    let text = long(alloc, b'a', count)?;
    is_read(alloc, text.as_slice())
}

// Whether so many bytes, of which no name is, are too many.
fn is_too_long(alloc: Global, count: usize) -> Result<bool, Memory> {
    let text = long(alloc, b'?', count)?;
    Ok(Name::read(alloc, text.as_slice()).err() == Some(NameFault::TooLong))
}

#[test]
fn a_name_has_255_bytes(rt: HostRuntime) {
    assert!(rt; is_long_read(rt.alloc(), 255) == Ok(true));
    assert!(rt; is_too_long(rt.alloc(), 256) == Ok(true));
}
