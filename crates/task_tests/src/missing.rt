// Where there is no path.
use super::graphs::{C_UNITS, Decls};
use super::held::{Held, Said};
use super::rows::{Comes, Row, run_row};
use object_values::Status;
use std::test::Fail;

// A tool and a pack that take what nothing makes, and a list that can't be led on.
const FAR: Decls = &[
    b"type t simple;",
    b"type e simple;",
    b"type d simple;",
    b"type k compound (all t, far e);",
    b"type l list of t;",
    b"type m list of e;",
    b"suffix .t t;",
    b"tool doc 1 from t to d run \"ld\" also e with \"z.t\";",
    b"pack pk from t to k;",
    b"read rd from t to l;",
    b"each on from l to m;",
];

const LINES: &[Said] = &[
    (Status::Abort, b"m.sm:units", b"line 1: unknown type"),
    (Status::Abort, b"m.sm:units", b"line 2: unknown parameter"),
    (Status::Abort, b"m.sm:units", b"line 3: no path"),
    (Status::Abort, b"m.sm:units", b"line 4: no path"),
];

const NO_EXTRA: &[Said] = &[(Status::Abort, b"p.t:d", b"no path e")];

const NO_PART: &[Said] = &[(Status::Abort, b"p.t:k", b"no path e")];

const NO_ELEMENT: &[Said] = &[(Status::Abort, b"p.t:l:m", b"no path e")];

const NO_SOURCE: &[Said] = &[(Status::Abort, b"p.t", b"no source p.t")];

const ROWS: &[Row] = &[
    // of lines, in their order
    Row {
        graph: &[C_UNITS],
        node: b"m.sm:units",
        results: &[(
            b"m.sm",
            Held::Simple(b"zz.c:q\na.c+opt\nz.h\na.c:exe\nb.c\n"),
        )],
        needs: &[b"m.sm"],
        call: None,
        left: &[],
        view: Held::Aborted(LINES),
    },
    // of an extra, once the base has a value
    Row {
        graph: &[FAR],
        node: b"p.t:d",
        results: &[
            (b"p.t", Held::Simple(b"p\n")),
            (b"z.t", Held::Simple(b"z\n")),
        ],
        needs: &[b"p.t", b"z.t"],
        call: None,
        left: &[],
        view: Held::Aborted(NO_EXTRA),
    },
    Row {
        graph: &[FAR],
        node: b"p.t:d",
        results: &[(b"p.t", Held::Aborted(NO_SOURCE))],
        needs: &[b"p.t"],
        call: None,
        left: &[],
        view: Held::Aborted(NO_SOURCE),
    },
    // of a part
    Row {
        graph: &[FAR],
        node: b"p.t:k",
        results: &[(b"p.t", Held::Simple(b"p\n"))],
        needs: &[b"p.t"],
        call: None,
        left: &[],
        view: Held::Aborted(NO_PART),
    },
    // of each element, told once
    Row {
        graph: &[FAR],
        node: b"p.t:l:m",
        results: &[(b"p.t:l", Held::List(&[b"a.t", b"b.t"]))],
        needs: &[b"p.t:l"],
        call: None,
        left: &[],
        view: Held::Aborted(NO_ELEMENT),
    },
];

#[test]
fn missing_paths_are_told(rt: HostRuntime) -> Result<(), Fail> {
    for (place, row) in ROWS.iter().enumerate() {
        assert_eq!(rt; run_row(rt.alloc(), row)?, Comes::AsWanted, "row {place}");
    }
    Ok(())
}
