// A project of two units and a program, as it is built, edited and built again over one store.
use crate::building::{File, Text, build, disk_of};
use std::test::Fail;
use test_support::tree_of;

/// Units are compiled and linked; a compound has a program and its list.
pub(crate) const GRAPH: File = (
    b"odin.graph",
    b"type c simple;\ntype o simple;\ntype sm simple;\ntype exe simple;\ntype units list of c;\ntype objs list of o;\ntype kit compound (prog exe, src sm);\nsuffix .c c;\nsuffix .sm sm;\ntool cc 1 from c to o run \"cc\";\ntool ld 1 from objs to exe run \"ld\";\nread rd from sm to units;\neach comp from units to objs;\npack pk from sm to kit;\n",
);

pub(crate) const LIST: File = (b"main.sm", b"a.c\nb.c\n");

pub(crate) const A: File = (b"a.c", b"x=1\n");

/// The tree before an edit, and its sources.
pub(crate) const WHOLE: &[File] = &[GRAPH, LIST, A, (b"b.c", b"y=2\n")];

pub(crate) const ALL: &[Text] = &[b"a.c", b"b.c", b"main.sm"];

pub(crate) const TARGETS: &[Text] = &[b"prog main.sm:exe out/prog", b"kit main.sm:kit kit"];

/// What is told of a build of the whole tree.
pub(crate) const BUILT: Text =
    b"object ok simple 8\nx=1\ny=2\n\nmessages 0\nobject ok compound 2\nprog 8\nx=1\ny=2\n\nsrc 8\na.c\nb.c\n\nmessages 0\nstatus 0\nwrite out/prog\nx=1\ny=2\nwrite kit/prog\nx=1\ny=2\nwrite kit/src\na.c\nb.c\n";

const FAILING: File = (b"b.c", b"!exit 1\ny=2\n");

const EDITED: Text =
    b"object ok simple 8\nx=1\ny=3\n\nmessages 0\nobject ok compound 2\nprog 8\nx=1\ny=3\n\nsrc 8\na.c\nb.c\n\nmessages 0\nstatus 0\nwrite out/prog\nx=1\ny=3\nwrite kit/prog\nx=1\ny=3\nwrite kit/src\na.c\nb.c\n";

const WITH_ERRORS: Text =
    b"object error simple 8\nx=1\ny=2\n\nmessages 0\nobject error compound 2\nprog 8\nx=1\ny=2\n\nsrc 8\na.c\nb.c\n\nmessages 0\nstatus 1\n";

const UNLISTED: Text =
    b"object abort none 0\nmessages 1\nabort b.c no source b.c\nobject abort none 0\nmessages 1\nabort b.c no source b.c\nstatus 1\n";

// Builds after one another: the files of the tree, the listed sources, what is told, and how many tools are started.
const HISTORY: &[(&[File], &[Text], Text, u64)] = &[
    (WHOLE, ALL, BUILT, 3),
    (WHOLE, ALL, BUILT, 0),
    // a unit is edited: it is compiled, and the program linked
    (&[GRAPH, LIST, A, (b"b.c", b"y=3\n")], ALL, EDITED, 2),
    // a unit has errors: it is compiled, to bytes that were linked before
    (&[GRAPH, LIST, A, FAILING], ALL, WITH_ERRORS, 1),
    // a listed source is gone
    (&[GRAPH, LIST, A], ALL, b"missing b.c\n", 0),
    // a source isn't listed, whatever the tree and the store have
    (WHOLE, &[b"a.c", b"main.sm"], UNLISTED, 0),
    (WHOLE, ALL, BUILT, 0),
];

#[test]
fn a_build_starts_just_the_tools_that_are_wanted(rt: HostRuntime) -> Result<(), Fail> {
    let alloc = rt.alloc();
    let mut disk = disk_of(alloc, b"")?;
    for (place, (files, sources, wanted, tools)) in HISTORY.iter().enumerate() {
        let mut tree = tree_of(alloc, files)?;
        let (told, starts) = build(alloc, &mut tree, sources, TARGETS, &mut disk, [0, 0])?;
        assert!(rt; told.as_slice() == *wanted, "build {place}");
        assert_eq!(rt; starts, *tools, "build {place}");
    }
    Ok(())
}
