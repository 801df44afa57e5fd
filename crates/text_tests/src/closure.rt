// Scan outputs, and the names to which their lines lead.
use dynamic_inputs::{Closure, read_scan};
use object_values::Memory;
use odin_bytes::{Name, NameFault};
use std::alloc::Global;

// A scan output, and the names in it.
const SCANS: &[(&[u8], &[&[u8]])] = &[
    (b"", &[]),
    (b"\n\r\n", &[]),
    (b"b.h\na.h", &[b"b.h", b"a.h"]),
    (b"a.h\na.h\n", &[b"a.h", b"a.h"]),
    (b"a.h\r\nb.h\r", &[b"a.h", b"b.h"]),
    (b"a.h\r\r\nb.h", &[b"b.h"]),
    (
        b"#a.h\n a.h\na h\na?h\nd/a-B_1.h\n\xc3\xa4.h",
        &[b"d/a-B_1.h"],
    ),
    (&[b'n'; 255], &[&[b'n'; 255]]),
    (&[b'n'; 256], &[]),
];

// Names, and the scan output of each. All others are absent.
type Scanned = &'static [(&'static [u8], &'static [u8])];

// A root, what is scanned, and the reached names.
type Row = (&'static [u8], Scanned, &'static [&'static [u8]]);

const CLOSURES: &[Row] = &[
    // nothing is scanned, or nothing is in it
    (b"a.c", &[], &[]),
    (b"a.c", &[(b"a.c", b"")], &[]),
    (b"a.c", &[(b"b.h", b"c.h")], &[]),
    // chains, one against the order of names
    (
        b"a.c",
        &[(b"a.c", b"b.h"), (b"b.h", b"c.h"), (b"c.h", b"d.h")],
        &[b"b.h", b"c.h", b"d.h"],
    ),
    (
        b"m.c",
        &[(b"m.c", b"z.h"), (b"z.h", b"k.h"), (b"k.h", b"b.h")],
        &[b"b.h", b"k.h", b"z.h"],
    ),
    // loops
    (
        b"a.c",
        &[(b"a.c", b"b.h"), (b"b.h", b"c.h"), (b"c.h", b"b.h\nc.h")],
        &[b"b.h", b"c.h"],
    ),
    (b"a.c", &[(b"a.c", b"b.h"), (b"b.h", b"b.h")], &[b"b.h"]),
    // the root again
    (b"a.c", &[(b"a.c", b"a.c")], &[b"a.c"]),
    (
        b"b.c",
        &[(b"b.c", b"c.h\na.h"), (b"c.h", b"b.c\nd.h")],
        &[b"a.h", b"b.c", b"c.h", b"d.h"],
    ),
    // doubles, and two ways to one name
    (
        b"a.c",
        &[
            (b"a.c", b"c.h\nb.h\nc.h"),
            (b"b.h", b"d.h"),
            (b"c.h", b"d.h\nb.h"),
        ],
        &[b"b.h", b"c.h", b"d.h"],
    ),
    // the same lines in another order
    (
        b"a.c",
        &[
            (b"a.c", b"b.h\nc.h\nc.h"),
            (b"c.h", b"b.h\nd.h"),
            (b"b.h", b"d.h"),
        ],
        &[b"b.h", b"c.h", b"d.h"],
    ),
    // an absent name, and one whose scan has no names
    (
        b"a.c",
        &[(b"a.c", b"x.h\nb.h"), (b"b.h", b"no name\r\n\r\n#\n")],
        &[b"b.h", b"x.h"],
    ),
    // the order of bytes
    (
        b"a",
        &[(b"a", b"ab\n_\nb\nB\na.b\na/b\n1\na-b")],
        &[b"1", b"B", b"_", b"a-b", b"a.b", b"a/b", b"ab", b"b"],
    ),
];

// Whether these are the names.
fn are(names: &[Name], expected: &[&[u8]]) -> bool {
    names.len() == expected.len()
        && names
            .iter()
            .zip(expected)
            .all(|(name, text)| name.as_slice() == *text)
}

fn reads(alloc: Global, text: &[u8], expected: &[&[u8]]) -> Result<bool, Memory> {
    let names = read_scan(alloc, text)?;
    Ok(are(names.as_slice(), expected))
}

// What is scanned of the name, nothing where it is absent.
fn scan_of(scanned: &[(&'static [u8], &'static [u8])], name: &[u8]) -> &'static [u8] {
    for (source, text) in scanned {
        if *source == name {
            return *text;
        }
    }
    b""
}

// Tells what is scanned of so many wanted names at most.
fn tell(alloc: Global, closure: &mut Closure, scanned: Scanned, most: u32) -> Result<(), Memory> {
    for _ in 0..most {
        let Some(name) = closure.wanted() else {
            return Ok(());
        };
        let lines = read_scan(alloc, scan_of(scanned, name.as_slice()))?;
        closure.add(alloc, lines.as_slice())?;
    }
    Ok(())
}

fn root_of(alloc: Global, root: &[u8]) -> Result<Closure, NameFault> {
    Ok(Closure::new(alloc, Name::read(alloc, root)?))
}

// Whether just these names are reached once so many are told.
fn reaches(alloc: Global, row: &Row, most: u32) -> Result<bool, NameFault> {
    let mut closure = root_of(alloc, row.0)?;
    tell(alloc, &mut closure, row.1, most)?;
    let names = closure.names(alloc)?;
    Ok(are(names.as_slice(), row.2))
}

#[test]
fn names_are_read_from_scans(rt: HostRuntime) {
    for (text, expected) in SCANS {
        assert!(rt; reads(rt.alloc(), text, expected) == Ok(true));
    }
}

#[test]
fn lines_lead_to_names(rt: HostRuntime) {
    for row in CLOSURES {
        assert!(rt; reaches(rt.alloc(), row, 20) == Ok(true));
    }
}

const STEPS: Scanned = &[
    (b"a.c", b"d.h\nc.h"),
    (b"d.h", b"b.h\na.c"),
    (b"c.h", b"e.h"),
];

// The names that are reached once 0, 1, 2 and 3 names are told.
const SO_FAR: &[Row] = &[
    (b"a.c", STEPS, &[]),
    (b"a.c", STEPS, &[b"c.h", b"d.h"]),
    (b"a.c", STEPS, &[b"a.c", b"b.h", b"c.h", b"d.h"]),
    (b"a.c", STEPS, &[b"a.c", b"b.h", b"c.h", b"d.h", b"e.h"]),
];

#[test]
fn names_are_those_of_the_lines_so_far(rt: HostRuntime) {
    let counts: [u32; 4] = [0, 1, 2, 3];
    for (row, most) in SO_FAR.iter().zip(&counts) {
        assert!(rt; reaches(rt.alloc(), row, *most) == Ok(true));
    }
}
