// Tools that take more than their base: the slots of what they take.
use super::graphs::{C_UNITS, Decls, KITS};
use super::held::{Held, Said};
use super::rows::{Comes, Row, run_row};
use object_values::Status;
use std::test::Fail;

// A tool with two extras that follows what sources name.
const BOTH: Decls = &[
    b"type txt simple;",
    b"tool doc 2 from c to txt run \"ld\" also o with \"lic.h\" closure inc;",
];

// A tool with a list beside its base.
const LISTED: Decls = &[
    b"type t simple;",
    b"type l list of t;",
    b"type d simple;",
    b"suffix .t t;",
    b"read rd from t to l;",
    b"tool doc 1 from t to d run \"ld\" also l with \"z.t\";",
];

const NO_LICENCE: &[Said] = &[(Status::Abort, b"lic.h", b"no source lic.h")];

const ROWS: &[Row] = &[
    Row {
        graph: &[C_UNITS, KITS],
        node: b"a.c:txt",
        results: &[
            (b"a.c", Held::Simple(b"x=1\n")),
            (b"a.c:o", Held::Simple(b"x=1\n")),
            (b"lic.h", Held::Simple(b"L\n")),
        ],
        needs: &[b"a.c", b"a.c:o", b"lic.h"],
        call: Some(
            b"odin 1\ntool doc 1\npart 0 i1 a.c\npart 1 i2 a.c:o\npart 2 i3 lic.h\nout out.txt\n",
        ),
        left: &[(b"out.txt", b"x=1\nx=1\nL\n")],
        view: Held::Simple(b"x=1\nx=1\nL\n"),
    },
    // the extra of a name has no parameters
    Row {
        graph: &[C_UNITS, KITS],
        node: b"a.c+debug:txt",
        results: &[
            (b"a.c+debug", Held::Simple(b"x=1\n")),
            (b"a.c+debug:o", Held::Simple(b"debug\nx=1\n")),
            (b"lic.h", Held::Simple(b"L\n")),
        ],
        needs: &[b"a.c+debug", b"a.c+debug:o", b"lic.h"],
        call: Some(
            b"odin 1\ntool doc 1\npart 0 i1 a.c\npart 1 i2 a.c:o\npart 2 i3 lic.h\nout out.txt\n",
        ),
        left: &[(b"out.txt", b"x=1\ndebug\nx=1\nL\n")],
        view: Held::Simple(b"x=1\ndebug\nx=1\nL\n"),
    },
    // reached sources have the slot after the extras
    Row {
        graph: &[C_UNITS, BOTH],
        node: b"a.c:txt",
        results: &[
            (b"a.c", Held::Simple(b"include a.h\n")),
            (b"a.c:o", Held::Simple(b"o\n")),
            (b"lic.h", Held::Simple(b"L\n")),
            (b"a.c:inc", Held::Simple(b"a.h\n")),
            (b"a.h", Held::Simple(b"y=2\n")),
            (b"a.h:inc", Held::Simple(b"")),
        ],
        needs: &[b"a.c", b"a.c:o", b"lic.h", b"a.c:inc", b"a.h:inc", b"a.h"],
        call: Some(
            b"odin 1\ntool doc 2\npart 0 i1 a.c\npart 1 i2 a.c:o\npart 2 i3 lic.h\npart 3 i4 a.h\nout out.txt\n",
        ),
        left: &[(b"out.txt", b"d\n")],
        view: Held::Simple(b"d\n"),
    },
    // an extra gives nothing
    Row {
        graph: &[C_UNITS, KITS],
        node: b"a.c:txt",
        results: &[
            (b"a.c", Held::Simple(b"x=1\n")),
            (b"a.c:o", Held::Simple(b"x=1\n")),
            (b"lic.h", Held::Aborted(NO_LICENCE)),
        ],
        needs: &[b"a.c", b"a.c:o", b"lic.h"],
        call: None,
        left: &[],
        view: Held::Aborted(NO_LICENCE),
    },
    // one part for each element of a list, all in its slot
    Row {
        graph: &[LISTED],
        node: b"p.t:d",
        results: &[
            (b"p.t", Held::Simple(b"a.t\nb.t\n")),
            (b"p.t:l", Held::List(&[b"a.t", b"b.t"])),
            (b"a.t", Held::Simple(b"a\n")),
            (b"b.t", Held::Simple(b"b\n")),
            (b"z.t", Held::Simple(b"z\n")),
        ],
        needs: &[b"p.t", b"p.t:l", b"a.t", b"b.t", b"z.t"],
        call: Some(
            b"odin 1\ntool doc 1\npart 0 i1 p.t\npart 1 i2 a.t\npart 1 i3 b.t\npart 2 i4 z.t\nout out.d\n",
        ),
        left: &[(b"out.d", b"d\n")],
        view: Held::Simple(b"d\n"),
    },
];

#[test]
fn extras_have_their_slots(rt: HostRuntime) -> Result<(), Fail> {
    for (place, row) in ROWS.iter().enumerate() {
        assert_eq!(rt; run_row(rt.alloc(), row)?, Comes::AsWanted, "row {place}");
    }
    Ok(())
}
