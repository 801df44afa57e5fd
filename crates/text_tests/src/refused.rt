// Refused files, each with its fault.
use super::units::fault_in;
use dg_reader::ReadFault;
use object_values::{Bytes, Memory};
use std::alloc::Global;
use std::test::Fail;

// A text that isn't in the grammar, with the line and the column of its fault.
type Place = (&'static [u8], u32, u32);

const TYPES_FAULTS: [Place; 26] = [
    (b"type c simple\ntype d simple;", 2, 1),
    (b"type", 1, 5),
    (b"type ", 1, 6),
    (b"type\n", 2, 1),
    (b"type c", 1, 7),
    (b"type c simple", 1, 14),
    (b"type c;", 1, 7),
    (b"type simple;", 1, 12),
    (b"type c simple is;", 1, 17),
    (b"type c simple is a,;", 1, 20),
    (b"type c simple is a b;", 1, 20),
    (b"type c list;", 1, 12),
    (b"type c list of;", 1, 15),
    (b"type c list a;", 1, 13),
    (b"type c list of a is;", 1, 20),
    (b"type c compound;", 1, 16),
    (b"type c compound();", 1, 17),
    (b"type c compound(a);", 1, 18),
    (b"type c compound(a b,);", 1, 21),
    (b"type c compound(a b;", 1, 20),
    (b"type c compound(a b) is d;", 1, 22),
    (b"type c compound(a b c);", 1, 21),
    (b"type 1c simple;", 1, 6),
    (b"type c.h simple;", 1, 6),
    (b"type \"c\" simple;", 1, 6),
    (b"type 1 list;", 1, 6),
];

const MAKERS_FAULTS: [Place; 27] = [
    (b"tool;", 1, 5),
    (b"tool t;", 1, 7),
    (b"tool t 1;", 1, 9),
    (b"tool t 1 to c;", 1, 10),
    (b"tool t 1 from;", 1, 14),
    (b"tool t 1 from a;", 1, 16),
    (b"tool t 1 from a from b;", 1, 17),
    (b"tool t 1 from a to;", 1, 19),
    (b"tool t 1 from a to b;", 1, 21),
    (b"tool t 1 from a to b run;", 1, 25),
    (b"tool t 1 from a to b run cc;", 1, 26),
    (b"tool t 1 from a to b run \"cc\" uses;", 1, 35),
    (b"tool t 1 from a to b run \"cc\" uses p,;", 1, 38),
    (b"tool t 1 from a to b run \"cc\" uses p uses q;", 1, 38),
    (b"tool t 1 from a to b run \"cc\" also;", 1, 35),
    (b"tool t 1 from a to b run \"cc\" also \"x\";", 1, 36),
    (b"tool t 1 from a to b run \"cc\" with;", 1, 35),
    (b"tool t 1 from a to b run \"cc\" with x;", 1, 36),
    (b"tool t 1 from a to b run \"cc\" with \"a b\";", 1, 36),
    (b"tool t 1 from a to b run \"cc\" with \"\";", 1, 36),
    (b"tool t 1 from a to b run \"cc\" closure;", 1, 38),
    (b"tool t 1 from a to b run \"cc\" closure c also d;", 1, 41),
    (b"tool t 1 from a to b run \"cc\" also d uses p;", 1, 38),
    (
        b"tool t 1 from a to b run \"cc\" \"dd\" uses p \"ee\";",
        1,
        43,
    ),
    (b"read r from a to b", 1, 19),
    (b"each e to b;", 1, 8),
    (b"pack p 1 from a to b;", 1, 8),
];

const OTHER_FAULTS: [Place; 13] = [
    (b"kind c simple;", 1, 1),
    (b"Type c simple;", 1, 1),
    (b";", 1, 1),
    (b"suffix;", 1, 7),
    (b"suffix .c;", 1, 10),
    (b"suffix c .c;", 1, 10),
    (b"suffix \".c\" c;", 1, 8),
    (b"param;", 1, 6),
    (b"param a b;", 1, 9),
    (b"param a", 1, 8),
    (b"param a;;", 1, 9),
    (b"param a)", 1, 8),
    (b"param a;\nparam b;\n\nparam c d;\nparam 2;", 4, 9),
];

const BYTES_FAULTS: [Place; 13] = [
    (b"type c simple; ?", 1, 16),
    (b"type c simple;\r\n\t{", 2, 2),
    (b"type c simple;\r\ntype d;\r\n", 2, 7),
    (b"type c simple\rtype d simple;", 1, 15),
    (b"tool t 1 from a to b run \"cc", 1, 26),
    (b"tool t 1 from a to b run \"c\tc\";", 1, 26),
    (b"tool t 1 from a to b run \"c\nc\";", 1, 26),
    (b"tool t 1 from a to b run \"c\x7fc\";", 1, 26),
    (b"type \xc3\xa4 simple;", 1, 6),
    (b"# only a comment\ntype", 2, 5),
    (b"type c # simple;", 1, 17),
    (b"type c simple # the end\n", 2, 1),
    (b"#\n#\n\n  type c#;\nsimple#;\n;?", 6, 2),
];

// Whether each text stops at its place.
fn stop(alloc: Global, places: &[Place]) -> bool {
    places.iter().all(|(text, line, column)| fault_in(alloc, text)
        == Some(ReadFault::Syntax(*line, *column)))
}

#[test]
fn declarations_stop_at_their_places(rt: HostRuntime) {
    for places in [
        TYPES_FAULTS.as_slice(),
        MAKERS_FAULTS.as_slice(),
        OTHER_FAULTS.as_slice(),
        BYTES_FAULTS.as_slice(),
    ] {
        assert!(rt; stop(rt.alloc(), places));
    }
}

// A front, so many bytes, what stands after them, and the fault.
type Long = (&'static [u8], u8, usize, &'static [u8], Option<ReadFault>);

const TOOL: &[u8] = b"type a simple; tool t 1 from a to a run \"";

const SUFFIX: &[u8] = b"type c simple; suffix ";

// Words and strings have at most 255 bytes, and files at most 1,048,576.
const LONG: &[Long] = &[
    (SUFFIX, b'x', 255, b" c;", None),
    (SUFFIX, b'x', 256, b" c;", Some(ReadFault::Syntax(1, 23))),
    (b"param ", b'x', 255, b";", None),
    (b"param ", b'x', 256, b";", Some(ReadFault::Syntax(1, 7))),
    (TOOL, b'x', 255, b"\";", None),
    (TOOL, b'x', 256, b"\";", Some(ReadFault::Syntax(1, 41))),
    (b"", b' ', 1_048_576, b"", None),
    (b"", b' ', 1_048_577, b"", Some(ReadFault::TooLong)),
    (b"", b'?', 1_048_576, b"", Some(ReadFault::Syntax(1, 1))),
    (b"", b'?', 1_048_577, b"", Some(ReadFault::TooLong)),
];

fn put_long(
    text: &mut Bytes,
    front: &[u8],
    byte: u8,
    count: usize,
    behind: &[u8],
) -> Result<(), Memory> {
    text.extend_from_slice(front)?;
    for _ in 0..count {
        text.push(byte)?;
    }
    text.extend_from_slice(behind)
}

// The fault of a file with so many bytes between two texts.
fn long_fault(
    alloc: Global,
    front: &[u8],
    byte: u8,
    count: usize,
    behind: &[u8],
) -> Result<Option<ReadFault>, Memory> {
    let mut text = Bytes::new(alloc);
    put_long(&mut text, front, byte, count, behind)?;
    Ok(fault_in(alloc, text.as_slice()))
}

#[test]
fn words_strings_and_files_have_their_limits(rt: HostRuntime) -> Result<(), Fail> {
    for (front, byte, count, behind, fault) in LONG {
        let found = long_fault(rt.alloc(), front, *byte, *count, behind)?;
        assert!(rt; found == *fault);
    }
    Ok(())
}

#[test]
fn syntax_comes_before_checks(rt: HostRuntime) {
    let found = fault_in(rt.alloc(), b"suffix .c c;\nparam");
    assert!(rt; found == Some(ReadFault::Syntax(2, 6)));
}
