// Lists: what is read, led on, picked and linked.
use super::graphs::{C_UNITS, JOINED_TEXTS};
use super::held::{Held, Said};
use super::rows::{Comes, Row, run_row};
use object_values::Status;
use std::test::Fail;

const NO_ELEMENT: &[Said] = &[(Status::Abort, b"m.sm:units:objs%9", b"no element 9")];

const BAD: &[Said] = &[(Status::Abort, b"m.sm:units", b"line 2: bad reference")];

const BAD_BELOW: &[Said] = &[(Status::Abort, b"m.sm:units", b"line 4: bad reference")];

const MANY: &[Said] = &[(Status::Abort, b"a.t:l", b"too many references")];

const NO_OBJECT: &[Said] = &[(Status::Abort, b"b.c", b"no source b.c")];

const ROWS: &[Row] = &[
    Row {
        graph: &[C_UNITS],
        node: b"m.sm:units",
        results: &[(b"m.sm", Held::Simple(b"a.c\nb.c\n"))],
        needs: &[b"m.sm"],
        call: None,
        left: &[],
        view: Held::List(&[b"a.c", b"b.c"]),
    },
    // with the parameters of the reading node, then its own
    Row {
        graph: &[C_UNITS],
        node: b"m.sm+debug=2:units",
        results: &[(b"m.sm+debug=2", Held::Simple(b"a.c\nb.c+debug=1\n\n#c.c\n"))],
        needs: &[b"m.sm+debug=2"],
        call: None,
        left: &[],
        view: Held::List(&[b"a.c+debug=2", b"b.c+debug=2+debug=1"]),
    },
    Row {
        graph: &[C_UNITS],
        node: b"m.sm:units:objs",
        results: &[(b"m.sm:units", Held::List(&[b"a.c", b"b.c"]))],
        needs: &[b"m.sm:units"],
        call: None,
        left: &[],
        view: Held::List(&[b"a.c:o", b"b.c:o"]),
    },
    Row {
        graph: &[C_UNITS],
        node: b"m.sm:units:objs%2",
        results: &[
            (b"m.sm:units:objs", Held::List(&[b"a.c:o", b"b.c:o"])),
            (b"b.c:o", Held::Simple(b"y=2\n")),
        ],
        needs: &[b"m.sm:units:objs", b"b.c:o"],
        call: None,
        left: &[],
        view: Held::Simple(b"y=2\n"),
    },
    Row {
        graph: &[C_UNITS],
        node: b"m.sm:units:objs%9",
        results: &[(b"m.sm:units:objs", Held::List(&[b"a.c:o", b"b.c:o"]))],
        needs: &[b"m.sm:units:objs"],
        call: None,
        left: &[],
        view: Held::Aborted(NO_ELEMENT),
    },
    Row {
        graph: &[C_UNITS],
        node: b"m.sm:units:objs:exe",
        results: &[
            (b"m.sm:units:objs", Held::List(&[b"a.c:o", b"b.c:o"])),
            (b"a.c:o", Held::Simple(b"x=1\n")),
            (b"b.c:o", Held::Simple(b"y=2\n")),
        ],
        needs: &[b"m.sm:units:objs", b"a.c:o", b"b.c:o"],
        call: Some(b"odin 1\ntool ld 1\npart 0 i1 a.c:o\npart 0 i2 b.c:o\nout out.exe\n"),
        left: &[(b"out.exe", b"x=1\ny=2\n")],
        view: Held::Simple(b"x=1\ny=2\n"),
    },
    // an empty list
    Row {
        graph: &[C_UNITS],
        node: b"m.sm:units:objs:exe",
        results: &[(b"m.sm:units:objs", Held::List(&[]))],
        needs: &[b"m.sm:units:objs"],
        call: Some(b"odin 1\ntool ld 1\nout out.exe\n"),
        left: &[(b"out.exe", b"")],
        view: Held::Simple(b""),
    },
    // an element gives nothing
    Row {
        graph: &[C_UNITS],
        node: b"m.sm:units:objs:exe",
        results: &[
            (b"m.sm:units:objs", Held::List(&[b"a.c:o", b"b.c:o"])),
            (b"a.c:o", Held::Simple(b"x=1\n")),
            (b"b.c:o", Held::Aborted(NO_OBJECT)),
        ],
        needs: &[b"m.sm:units:objs", b"a.c:o", b"b.c:o"],
        call: None,
        left: &[],
        view: Held::Aborted(NO_OBJECT),
    },
    // two elements are the same
    Row {
        graph: &[JOINED_TEXTS],
        node: b"a.t:l:u",
        results: &[
            (b"a.t:l", Held::List(&[b"b.t", b"b.t"])),
            (b"b.t", Held::Simple(b"y\n")),
        ],
        needs: &[b"a.t:l", b"b.t", b"b.t"],
        call: Some(b"odin 1\ntool join 1\npart 0 i1 b.t\npart 0 i2 b.t\nout out.u\n"),
        left: &[(b"out.u", b"y\ny\n")],
        view: Held::Simple(b"y\ny\n"),
    },
    // lines that don't read, which are numbered with all others
    Row {
        graph: &[C_UNITS],
        node: b"m.sm:units",
        results: &[(b"m.sm", Held::Simple(b"a.c\n?\n"))],
        needs: &[b"m.sm"],
        call: None,
        left: &[],
        view: Held::Aborted(BAD),
    },
    Row {
        graph: &[C_UNITS],
        node: b"m.sm:units",
        results: &[(b"m.sm", Held::Simple(b"#?\n\na.c\r\n?"))],
        needs: &[b"m.sm"],
        call: None,
        left: &[],
        view: Held::Aborted(BAD_BELOW),
    },
    Row {
        graph: &[C_UNITS],
        node: b"m.sm:units:objs:exe",
        results: &[(b"m.sm:units:objs", Held::Aborted(BAD))],
        needs: &[b"m.sm:units:objs"],
        call: None,
        left: &[],
        view: Held::Aborted(BAD),
    },
    // more lines than a list may have
    Row {
        graph: &[JOINED_TEXTS],
        node: b"a.t:l",
        results: &[(b"a.t", Held::Repeated(b"b.t\n", 10_001))],
        needs: &[b"a.t"],
        call: None,
        left: &[],
        view: Held::Aborted(MANY),
    },
];

#[test]
fn lists_are_read_and_led_on(rt: HostRuntime) -> Result<(), Fail> {
    for (place, row) in ROWS.iter().enumerate() {
        assert_eq!(rt; run_row(rt.alloc(), row)?, Comes::AsWanted, "row {place}");
    }
    Ok(())
}
