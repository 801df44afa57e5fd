// Compounds: what is packed, picked, taken by tools and made by them.
use super::graphs::{C_UNITS, Decls, KITS, PACK};
use super::held::{Held, Said};
use super::rows::{Comes, Row, run_row};
use object_values::Status;
use std::test::Fail;

// A tool over a compound.
const JOINED: Decls = &[b"type d simple;", b"tool join 1 from k to d run \"ld\";"];

// A tool that makes a compound.
const SPLIT: Decls = &[
    b"type t simple;",
    b"type k compound (all t, src t);",
    b"suffix .t t;",
    b"tool split 1 from t to k run \"ld\";",
];

const NO_SOURCE: &[Said] = &[(Status::Abort, b"a.t", b"no source a.t")];

const NO_OUTPUT: &[Said] = &[(Status::Abort, b"p.t:k", b"no output src")];

const ROWS: &[Row] = &[
    Row {
        graph: &[C_UNITS, KITS],
        node: b"m.sm:kit",
        results: &[
            (b"m.sm:units:objs:exe", Held::Simple(b"x=1\n")),
            (b"m.sm", Held::Simple(b"a.c\n")),
        ],
        needs: &[b"m.sm:units:objs:exe", b"m.sm"],
        call: None,
        left: &[],
        view: Held::Compound(&[(b"prog", b"x=1\n"), (b"src", b"a.c\n")]),
    },
    Row {
        graph: &[C_UNITS, KITS],
        node: b"m.sm:kit%src",
        results: &[(
            b"m.sm:kit",
            Held::Compound(&[(b"prog", b"x=1\n"), (b"src", b"a.c\n")]),
        )],
        needs: &[b"m.sm:kit"],
        call: None,
        left: &[],
        view: Held::Simple(b"a.c\n"),
    },
    // both parts are the source itself
    Row {
        graph: &[PACK],
        node: b"p.t:k",
        results: &[(b"p.t", Held::Simple(b"a.t\n"))],
        needs: &[b"p.t", b"p.t"],
        call: None,
        left: &[],
        view: Held::Compound(&[(b"all", b"a.t\n"), (b"src", b"a.t\n")]),
    },
    Row {
        graph: &[PACK],
        node: b"p.t:l%1",
        results: &[
            (b"p.t:l", Held::List(&[b"a.t"])),
            (b"a.t", Held::Aborted(NO_SOURCE)),
        ],
        needs: &[b"p.t:l", b"a.t"],
        call: None,
        left: &[],
        view: Held::Aborted(NO_SOURCE),
    },
    // one part for each part of the base, with its name after the label
    Row {
        graph: &[PACK, JOINED],
        node: b"p.t:k:d",
        results: &[(
            b"p.t:k",
            Held::Compound(&[(b"all", b"a\n"), (b"src", b"s\n")]),
        )],
        needs: &[b"p.t:k"],
        call: Some(b"odin 1\ntool join 1\npart 0 i1 p.t:k%all\npart 0 i2 p.t:k%src\nout out.d\n"),
        left: &[(b"out.d", b"a\ns\n")],
        view: Held::Simple(b"a\ns\n"),
    },
    // an output for each part that is made
    Row {
        graph: &[SPLIT],
        node: b"p.t:k",
        results: &[(b"p.t", Held::Simple(b"p\n"))],
        needs: &[b"p.t"],
        call: Some(b"odin 1\ntool split 1\npart 0 i1 p.t\nout out.all\nout out.src\n"),
        left: &[(b"out.src", b"s\n"), (b"out.all", b"a\n")],
        view: Held::Compound(&[(b"all", b"a\n"), (b"src", b"s\n")]),
    },
    Row {
        graph: &[SPLIT],
        node: b"p.t:k",
        results: &[(b"p.t", Held::Simple(b"p\n"))],
        needs: &[b"p.t"],
        call: Some(b"odin 1\ntool split 1\npart 0 i1 p.t\nout out.all\nout out.src\n"),
        left: &[(b"out.all", b"a\n")],
        view: Held::Aborted(NO_OUTPUT),
    },
];

#[test]
fn compounds_are_packed_and_taken(rt: HostRuntime) -> Result<(), Fail> {
    for (place, row) in ROWS.iter().enumerate() {
        assert_eq!(rt; run_row(rt.alloc(), row)?, Comes::AsWanted, "row {place}");
    }
    Ok(())
}
