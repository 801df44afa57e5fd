// Expressions as they are read and written, and what is none.
use object_values::{Bytes, Memory};
use request_parser::{ExpressionFault, read_expression, write_expression};
use std::alloc::Global;

// Texts, and how their expressions are written.
const ROWS: &[(&[u8], &[u8])] = &[
    (b" a.c +debug :o ", b"a.c+debug:o"),
    (b"a+b=2+a+b=1+b=2%1", b"a+a+b=2+b=1%1"),
    (b"a.c%01", b"a.c%01"),
    (b"a.c:o%1", b"a.c:o%1"),
    (b"a%1+b=:o", b"a+b%1:o"),
    (b"lib/x-1+a=b=\"~", b"lib/x-1+a=b=\"~"),
];

// Texts that are no expressions, and the places of their faults.
const FAULTS: &[(&[u8], u32)] = &[
    (b"a.c:", 5),
    (b"?", 1),
    (b"", 1),
    (b"a+b=\x7f", 5),
    (b"a b", 3),
    (b"a:1", 3),
    (b"a+:o", 3),
    (b"a%%", 3),
    (b"a+b =c", 5),
];

// Fronts of texts, a byte with which they go on, how often it stands, and the place of the fault of one more.
const LONG: &[(&[u8], u8, usize, u32)] = &[
    (b"", b'a', 255, 256),
    (b"a:", b'o', 255, 258),
    (b"a+", b'b', 255, 258),
    (b"a%", b'1', 255, 258),
    (b"a+b=", b'c', 996, 1001),
    (b"a", b' ', 999, 1001),
];

// Adds the byte at the end, so often.
fn put_often(text: &mut Bytes, byte: u8, count: usize) -> Result<(), Memory> {
    for _ in 0..count {
        text.push(byte)?;
    }
    Ok(())
}

// The front and then the byte, so often.
fn long(alloc: Global, front: &[u8], byte: u8, count: usize) -> Result<Bytes, Memory> {
    let mut text = Bytes::from_slice(alloc, front)?;
    put_often(&mut text, byte, count)?;
    Ok(text)
}

// How the expression of a text is written.
fn rewritten(alloc: Global, text: &[u8]) -> Result<Bytes, ExpressionFault> {
    let expression = read_expression(alloc, text)?;
    Ok(write_expression(alloc, &expression)?)
}

fn is_written(alloc: Global, text: &[u8], written: &[u8]) -> bool {
    match rewritten(alloc, text) {
        Ok(bytes) => bytes.as_slice() == written,
        Err(_) => false,
    }
}

fn is_read(alloc: Global, text: &[u8]) -> bool {
    read_expression(alloc, text).is_ok()
}

fn is_fault(alloc: Global, text: &[u8], place: u32) -> bool {
    match read_expression(alloc, text) {
        Ok(_) => false,
        Err(fault) => fault == ExpressionFault::BadAt(place),
    }
}

#[test]
fn expressions_are_read_and_written(rt: HostRuntime) {
    for (text, written) in ROWS {
        assert!(rt; is_written(rt.alloc(), text, written));
        assert!(rt; is_written(rt.alloc(), written, written));
    }
}

#[test]
fn faults_have_their_places(rt: HostRuntime) {
    for (text, place) in FAULTS {
        assert!(rt; is_fault(rt.alloc(), text, *place));
    }
}

// Whether so many of the byte after the front are read, and one more is a fault at the place.
fn is_limit(
    alloc: Global,
    front: &[u8],
    byte: u8,
    count: usize,
    place: u32,
) -> Result<bool, Memory> {
    let whole = long(alloc, front, byte, count)?;
    if !is_read(alloc, whole.as_slice()) {
        return Ok(false);
    }
    let longer = long(alloc, whole.as_slice(), byte, 1)?;
    Ok(is_fault(alloc, longer.as_slice(), place))
}

#[test]
fn words_and_texts_have_limits(rt: HostRuntime) {
    for (front, byte, count, place) in LONG {
        assert!(rt; is_limit(rt.alloc(), front, *byte, *count, *place) == Ok(true));
    }
}

// Whether so many spaces are no expression, by the place after them.
fn is_blank(alloc: Global, count: usize, place: u32) -> Result<bool, Memory> {
    let text = long(alloc, b"", b' ', count)?;
    Ok(is_fault(alloc, text.as_slice(), place))
}

#[test]
fn spaces_are_no_expression(rt: HostRuntime) {
    assert!(rt; is_blank(rt.alloc(), 1000, 1001) == Ok(true));
}
