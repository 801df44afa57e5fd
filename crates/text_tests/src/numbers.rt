// Numbers have one spelling each.
use object_values::{Bytes, Memory};
use odin_bytes::{read_number, write_number};
use std::alloc::Global;
use std::test::Fail;

// Whether the number is written as this text.
fn is_written(alloc: Global, number: u64, text: &[u8]) -> Result<bool, Memory> {
    let mut out = Bytes::new(alloc);
    write_number(number, &mut out)?;
    Ok(out.as_slice() == text)
}

// Spellings of numbers.
const SPELLINGS: &[(&[u8], u64)] = &[
    (b"0", 0),
    (b"7", 7),
    (b"16777216", 16_777_216),
    (b"18446744073709551615", u64::MAX),
];

// What spells no number.
const OTHERS: &[&[u8]] = &[
    b"",
    b"00",
    b"01",
    b"+1",
    b"-1",
    b" 1",
    b"1x",
    b"0x1",
    b"18446744073709551616",
    b"\xff",
];

#[test]
fn numbers_have_one_spelling(rt: HostRuntime) -> Result<(), Fail> {
    for (text, number) in SPELLINGS {
        assert!(rt; read_number(text) == Some(*number));
        assert!(rt; is_written(rt.alloc(), *number, text)?);
    }
    for text in OTHERS {
        assert!(rt; read_number(text) == None);
    }
    Ok(())
}
