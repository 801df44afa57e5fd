// The messages of needs, and the own ones after them.
use super::graphs::C_UNITS;
use super::held::{Held, Said};
use super::rows::{Comes, Row, run_row};
use object_values::Status;
use std::test::Fail;

const OLD: &[Said] = &[(Status::Warning, b"a.c:o", b"old")];

const OLD_AND_NEW: &[Said] = &[
    (Status::Warning, b"a.c:o", b"old"),
    (Status::Warning, b"m.sm:units:objs:exe", b"new"),
];

const OLD_AND_ODD: &[Said] = &[
    (Status::Warning, b"a.c:o", b"old"),
    (Status::Warning, b"b.c:o", b"odd"),
];

const BROKEN: &[Said] = &[
    (Status::Warning, b"a.c:o", b"old"),
    (Status::Abort, b"m.sm:units:objs:exe", b"no output exe"),
];

const WARNED_HEADER: &[Said] = &[(Status::Warning, b"a.h", b"odd")];

const ROWS: &[Row] = &[
    // the own messages come after those of the needs
    Row {
        graph: &[C_UNITS],
        node: b"m.sm:units:objs:exe",
        results: &[
            (b"m.sm:units:objs", Held::List(&[b"a.c:o"])),
            (b"a.c:o", Held::Warned(b"x=1\n", OLD)),
        ],
        needs: &[b"m.sm:units:objs", b"a.c:o"],
        call: Some(b"odin 1\ntool ld 1\npart 0 i1 a.c:o\nout out.exe\n"),
        left: &[(b"warnings", b"new\n"), (b"out.exe", b"x=1\n")],
        view: Held::Warned(b"x=1\n", OLD_AND_NEW),
    },
    Row {
        graph: &[C_UNITS],
        node: b"m.sm:units:objs:exe",
        results: &[
            (b"m.sm:units:objs", Held::List(&[b"a.c:o"])),
            (b"a.c:o", Held::Warned(b"x=1\n", OLD)),
        ],
        needs: &[b"m.sm:units:objs", b"a.c:o"],
        call: Some(b"odin 1\ntool ld 1\npart 0 i1 a.c:o\nout out.exe\n"),
        left: &[],
        view: Held::Aborted(BROKEN),
    },
    // a message that two needs have stands once, where it came first
    Row {
        graph: &[C_UNITS],
        node: b"m.sm:units:objs:exe",
        results: &[
            (b"m.sm:units:objs", Held::List(&[b"a.c:o", b"b.c:o"])),
            (b"a.c:o", Held::Warned(b"x=1\n", OLD)),
            (b"b.c:o", Held::Warned(b"y=2\n", OLD)),
        ],
        needs: &[b"m.sm:units:objs", b"a.c:o", b"b.c:o"],
        call: Some(b"odin 1\ntool ld 1\npart 0 i1 a.c:o\npart 0 i2 b.c:o\nout out.exe\n"),
        left: &[(b"out.exe", b"x=1\ny=2\n")],
        view: Held::Warned(b"x=1\ny=2\n", OLD),
    },
    Row {
        graph: &[C_UNITS],
        node: b"m.sm:units:objs:exe",
        results: &[
            (
                b"m.sm:units:objs",
                Held::List(&[b"a.c:o", b"b.c:o", b"a.c:o"]),
            ),
            (b"a.c:o", Held::Warned(b"x=1\n", OLD)),
            (b"b.c:o", Held::Warned(b"y=2\n", OLD_AND_ODD)),
        ],
        needs: &[b"m.sm:units:objs", b"a.c:o", b"b.c:o", b"a.c:o"],
        call: Some(
            b"odin 1\ntool ld 1\npart 0 i1 a.c:o\npart 0 i2 b.c:o\npart 0 i3 a.c:o\nout out.exe\n",
        ),
        left: &[(b"out.exe", b"x=1\ny=2\nx=1\n")],
        view: Held::Warned(b"x=1\ny=2\nx=1\n", OLD_AND_ODD),
    },
    // what is picked has the status and the messages of the element
    Row {
        graph: &[C_UNITS],
        node: b"m.sm:units:objs%1",
        results: &[
            (b"m.sm:units:objs", Held::List(&[b"a.c:o"])),
            (b"a.c:o", Held::Warned(b"x=1\n", OLD)),
        ],
        needs: &[b"m.sm:units:objs", b"a.c:o"],
        call: None,
        left: &[],
        view: Held::Warned(b"x=1\n", OLD),
    },
    // reached sources add neither a status nor messages
    Row {
        graph: &[C_UNITS],
        node: b"a.c:o",
        results: &[
            (b"a.c", Held::Simple(b"include a.h\n")),
            (b"a.c:inc", Held::Simple(b"a.h\n")),
            (b"a.h", Held::Warned(b"y=2\n", WARNED_HEADER)),
            (b"a.h:inc", Held::Simple(b"")),
        ],
        needs: &[b"a.c", b"a.c:inc", b"a.h:inc", b"a.h"],
        call: Some(b"odin 1\ntool cc 1\npart 0 i1 a.c\npart 1 i2 a.h\nout out.o\n"),
        left: &[(b"out.o", b"y=2\n")],
        view: Held::Simple(b"y=2\n"),
    },
];

#[test]
fn messages_are_inherited(rt: HostRuntime) -> Result<(), Fail> {
    for (place, row) in ROWS.iter().enumerate() {
        assert_eq!(rt; run_row(rt.alloc(), row)?, Comes::AsWanted, "row {place}");
    }
    Ok(())
}
