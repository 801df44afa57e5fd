// Tools that follow what sources name.
use super::graphs::{C_UNITS, Text};
use super::held::{Held, Said};
use super::rows::{Comes, Row, run_row};
use object_values::Status;
use std::test::Fail;

const NO_HEADER: &[Said] = &[(Status::Abort, b"x.h", b"no source x.h")];

const NO_SOURCE: &[Said] = &[(Status::Abort, b"a.c", b"no source a.c")];

const NO_SCAN: &[Said] = &[(Status::Abort, b"a.c:inc", b"tool scan ended by a signal")];

const NO_HEADER_SCAN: &[Said] = &[(Status::Abort, b"a.h:inc", b"tool scan ended by a signal")];

const CALL: Text = b"odin 1\ntool cc 1\npart 0 i1 a.c\nout out.o\n";

const ROWS: &[Row] = &[
    // headers that include each other
    Row {
        graph: &[C_UNITS],
        node: b"a.c:o",
        results: &[
            (b"a.c", Held::Simple(b"include a.h\nx=1\n")),
            (b"a.c:inc", Held::Simple(b"a.h\n")),
            (b"a.h", Held::Simple(b"include b.h\ny=2\n")),
            (b"a.h:inc", Held::Simple(b"b.h\n")),
            (b"b.h", Held::Simple(b"include a.h\nz=3\n")),
            (b"b.h:inc", Held::Simple(b"a.h\n")),
        ],
        needs: &[b"a.c", b"a.c:inc", b"a.h:inc", b"b.h:inc", b"a.h", b"b.h"],
        call: Some(b"odin 1\ntool cc 1\npart 0 i1 a.c\npart 1 i2 a.h\npart 1 i3 b.h\nout out.o\n"),
        left: &[(b"out.o", b"x=1\ny=2\nz=3\n")],
        view: Held::Simple(b"x=1\ny=2\nz=3\n"),
    },
    // an absent header, and the same once it is there
    Row {
        graph: &[C_UNITS],
        node: b"a.c:o",
        results: &[
            (b"a.c", Held::Simple(b"include x.h\nx=1\n")),
            (b"a.c:inc", Held::Simple(b"x.h\n")),
            (b"x.h", Held::Aborted(NO_HEADER)),
        ],
        needs: &[b"a.c", b"a.c:inc", b"x.h"],
        call: Some(b"odin 1\ntool cc 1\npart 0 i1 a.c\npart 1 - x.h\nout out.o\n"),
        left: &[(b"out.o", b"x=1\n")],
        view: Held::Simple(b"x=1\n"),
    },
    Row {
        graph: &[C_UNITS],
        node: b"a.c:o",
        results: &[
            (b"a.c", Held::Simple(b"include x.h\nx=1\n")),
            (b"a.c:inc", Held::Simple(b"x.h\n")),
            (b"x.h", Held::Simple(b"w=5\n")),
            (b"x.h:inc", Held::Simple(b"")),
        ],
        needs: &[b"a.c", b"a.c:inc", b"x.h:inc", b"x.h"],
        call: Some(b"odin 1\ntool cc 1\npart 0 i1 a.c\npart 1 i2 x.h\nout out.o\n"),
        left: &[(b"out.o", b"x=1\nw=5\n")],
        view: Held::Simple(b"x=1\nw=5\n"),
    },
    // a parameter, which scan nodes have too, and reached sources don't
    Row {
        graph: &[C_UNITS],
        node: b"a.c+debug:o",
        results: &[
            (b"a.c+debug", Held::Simple(b"x=1\n")),
            (b"a.c+debug:inc", Held::Simple(b"")),
        ],
        needs: &[b"a.c+debug", b"a.c+debug:inc"],
        call: Some(b"odin 1\ntool cc 1\nparam debug \npart 0 i1 a.c\nout out.o\n"),
        left: &[(b"out.o", b"debug\nx=1\n")],
        view: Held::Simple(b"debug\nx=1\n"),
    },
    Row {
        graph: &[C_UNITS],
        node: b"a.c+debug=2:o",
        results: &[
            (b"a.c+debug=2", Held::Simple(b"include a.h\n")),
            (b"a.c+debug=2:inc", Held::Simple(b"a.h\n")),
            (b"a.h", Held::Simple(b"y=2\n")),
            (b"a.h+debug=2:inc", Held::Simple(b"")),
        ],
        needs: &[
            b"a.c+debug=2",
            b"a.c+debug=2:inc",
            b"a.h+debug=2:inc",
            b"a.h",
        ],
        call: Some(b"odin 1\ntool cc 1\nparam debug 2\npart 0 i1 a.c\npart 1 i2 a.h\nout out.o\n"),
        left: &[(b"out.o", b"debug\ny=2\n")],
        view: Held::Simple(b"debug\ny=2\n"),
    },
    // the own source is named again by a header
    Row {
        graph: &[C_UNITS],
        node: b"a.c:o",
        results: &[
            (b"a.c", Held::Simple(b"include a.h\nx=1\n")),
            (b"a.c:inc", Held::Simple(b"a.h\n")),
            (b"a.h", Held::Simple(b"include a.c\n")),
            (b"a.h:inc", Held::Simple(b"a.c\n")),
        ],
        needs: &[b"a.c", b"a.c:inc", b"a.h:inc", b"a.c", b"a.h"],
        call: Some(b"odin 1\ntool cc 1\npart 0 i1 a.c\npart 1 i2 a.c\npart 1 i3 a.h\nout out.o\n"),
        left: &[(b"out.o", b"x=1\nx=1\n")],
        view: Held::Simple(b"x=1\nx=1\n"),
    },
    // lines of a scan that are no names
    Row {
        graph: &[C_UNITS],
        node: b"a.c:o",
        results: &[
            (b"a.c", Held::Simple(b"x=1\n")),
            (b"a.c:inc", Held::Simple(b"a b\n\n<c>\n")),
        ],
        needs: &[b"a.c", b"a.c:inc"],
        call: Some(CALL),
        left: &[(b"out.o", b"x=1\n")],
        view: Held::Simple(b"x=1\n"),
    },
    // a scan node, or that of a header, gives nothing
    Row {
        graph: &[C_UNITS],
        node: b"a.c:o",
        results: &[
            (b"a.c", Held::Simple(b"x=1\n")),
            (b"a.c:inc", Held::Aborted(NO_SCAN)),
        ],
        needs: &[b"a.c", b"a.c:inc"],
        call: None,
        left: &[],
        view: Held::Aborted(NO_SCAN),
    },
    Row {
        graph: &[C_UNITS],
        node: b"a.c:o",
        results: &[
            (b"a.c", Held::Simple(b"include a.h\n")),
            (b"a.c:inc", Held::Simple(b"a.h\n")),
            (b"a.h", Held::Simple(b"y=2\n")),
            (b"a.h:inc", Held::Aborted(NO_HEADER_SCAN)),
        ],
        needs: &[b"a.c", b"a.c:inc", b"a.h:inc", b"a.h"],
        call: None,
        left: &[],
        view: Held::Aborted(NO_HEADER_SCAN),
    },
    // the own source isn't there
    Row {
        graph: &[C_UNITS],
        node: b"a.c:o",
        results: &[(b"a.c", Held::Aborted(NO_SOURCE))],
        needs: &[b"a.c"],
        call: None,
        left: &[],
        view: Held::Aborted(NO_SOURCE),
    },
];

#[test]
fn reached_sources_are_followed(rt: HostRuntime) -> Result<(), Fail> {
    for (place, row) in ROWS.iter().enumerate() {
        assert_eq!(rt; run_row(rt.alloc(), row)?, Comes::AsWanted, "row {place}");
    }
    Ok(())
}
