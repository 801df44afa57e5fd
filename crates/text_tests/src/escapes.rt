// Escaped texts have one spelling each.
use object_values::{Bytes, Memory};
use odin_bytes::{escape, unescape};
use std::alloc::Global;
use std::test::Fail;

// The spelling of a text.
fn escaped(alloc: Global, text: &[u8]) -> Result<Bytes, Memory> {
    let mut out = Bytes::new(alloc);
    escape(text, &mut out)?;
    Ok(out)
}

// Whether the text has this spelling, and is read from it.
fn is_spelled(alloc: Global, text: &[u8], spelling: &[u8]) -> Result<bool, Memory> {
    if escaped(alloc, text)?.as_slice() != spelling {
        return Ok(false);
    }
    let read = unescape(alloc, spelling)?;
    Ok(read.is_some_and(|read| read.as_slice() == text))
}

// Texts with their spellings.
const SPELLINGS: &[(&[u8], &[u8])] = &[
    (b"", b""),
    (b"a b~", b"a b~"),
    (b"a\tb", b"a\\x09b"),
    (b"a\\b\n", b"a\\\\b\\x0a"),
    (b"\x00\x7f\xff\r", b"\\x00\\x7f\\xff\\x0d"),
];

// What spells no text.
const OTHERS: &[&[u8]] = &[
    b"\\", b"\\x0", b"\\x0A", b"\\x41", b"\\x5c", b"\\n", b"a\n", b"\x7f",
];

#[test]
fn texts_have_one_spelling(rt: HostRuntime) -> Result<(), Fail> {
    for (text, spelling) in SPELLINGS {
        assert!(rt; is_spelled(rt.alloc(), text, spelling)?);
    }
    for spelling in OTHERS {
        assert!(rt; unescape(rt.alloc(), spelling)?.is_none());
    }
    Ok(())
}
