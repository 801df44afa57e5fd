// Builds that are refused or that fail, each over an empty store, and the builds that come after them.
use crate::building::{File, Text, build, disk_of};
use crate::builds::{A, ALL, BUILT, GRAPH, LIST, TARGETS, WHOLE};
use object_values::{Bytes, Memory};
use odin_fakes::{FailDisk, FailTree};
use std::alloc::Global;
use std::test::Fail;
use test_support::{only, tree_of};

const UNREADABLE: &[File] = &[(b"odin.graph", b"type c simple\ntype d simple;")];

const UNCHECKED: &[File] = &[(b"odin.graph", b"suffix .c c;\n")];

const OUTPUT: Text = b"output kit\nwrite out/prog\nx=1\ny=2\nwrite kit/prog\nx=1\ny=2\n";

const NO_PROCESS: Text =
    b"refused tool start\nobject ok compound 2\nprog 8\nx=1\ny=2\n\nsrc 8\na.c\nb.c\n\nmessages 0\nstatus 2\nwrite kit/prog\nx=1\ny=2\nwrite kit/src\na.c\nb.c\n";

const NO_TYPE: &[Text] = &[b"prog main.sm:zz out/prog", b"unit a.c:o a.o"];

const NO_TYPE_TOLD: Text =
    b"refused type zz\nobject ok simple 4\nx=1\n\nmessages 0\nstatus 2\nwrite a.o\nx=1\n";

// The tree, the targets, the numbers of the calls of the tree, the tools and the outputs that fail, what is told, and how many tools are started.
type Row = (&'static [File], &'static [Text], [u32; 3], Text, u64);

const ROWS: &[Row] = &[
    (&[LIST, A], TARGETS, [0, 0, 0], b"no graph\n", 0),
    (UNREADABLE, TARGETS, [0, 0, 0], b"syntax at 2 1\n", 0),
    (UNCHECKED, TARGETS, [0, 0, 0], b"line 1\n", 0),
    (&[GRAPH, LIST], TARGETS, [0, 0, 0], b"missing a.c\n", 0),
    (WHOLE, TARGETS, [1, 0, 0], b"tree at the graph\n", 0),
    (WHOLE, TARGETS, [4, 0, 0], b"tree at a source\n", 0),
    (WHOLE, TARGETS, [0, 0, 1], b"output prog\n", 3),
    (WHOLE, TARGETS, [0, 0, 3], OUTPUT, 3),
    (WHOLE, TARGETS, [0, 1, 0], NO_PROCESS, 3),
    (WHOLE, NO_TYPE, [0, 0, 0], NO_TYPE_TOLD, 1),
];

// What is told of a build over an empty store, where also a call of the disk fails, how many tools are started, and the image that is left.
fn build_with(alloc: Global, row: &Row, call: u32) -> Result<(Bytes, u64, Vec<u8>), Memory> {
    let (files, targets, [reads, starts, writes], _, _) = *row;
    let mut tree = FailTree::new(tree_of(alloc, files)?, only(alloc, reads)?);
    let mut disk = FailDisk::new(disk_of(alloc, b"")?, only(alloc, call)?);
    let (told, started) = build(alloc, &mut tree, ALL, targets, &mut disk, [starts, writes])?;
    Ok((told, started, disk.inner().image().to_vec(alloc)?))
}

// The same of a build of the whole tree over what another build left.
fn build_whole(alloc: Global, image: &[u8]) -> Result<(Bytes, u64, Vec<u8>), Memory> {
    let mut tree = tree_of(alloc, WHOLE)?;
    let mut disk = disk_of(alloc, image)?;
    let (told, starts) = build(alloc, &mut tree, ALL, TARGETS, &mut disk, [0, 0])?;
    Ok((told, starts, disk.image().to_vec(alloc)?))
}

#[test]
fn a_fault_is_told_and_the_next_build_goes_on(rt: HostRuntime) -> Result<(), Fail> {
    for (place, row) in ROWS.iter().enumerate() {
        let (told, starts, image) = build_with(rt.alloc(), row, 0)?;
        assert!(rt; told.as_slice() == row.3 && starts == row.4, "row {place}");
        let (told, more, _) = build_whole(rt.alloc(), image.as_slice())?;
        assert!(rt; told.as_slice() == BUILT, "after row {place}");
        assert_eq!(rt; starts.saturating_add(more), 3, "after row {place}");
    }
    Ok(())
}

#[test]
fn a_disk_that_fails_at_any_call_loses_nothing(rt: HostRuntime) -> Result<(), Fail> {
    let mut failed = 0;
    for call in 1..100 {
        let row = (WHOLE, TARGETS, [0, 0, 0], BUILT, 3);
        let (told, _, image) = build_with(rt.alloc(), &row, call)?;
        if told.as_slice() == BUILT {
            break;
        }
        failed = call;
        // what a target before it has written stands after that
        assert!(rt; told.as_slice().starts_with(b"disk\n"), "call {call}");
        let (told, _, _) = build_whole(rt.alloc(), image.as_slice())?;
        assert!(rt; told.as_slice() == BUILT, "after call {call}");
    }
    // the graph, three sources, three outcomes and what is noted for a target are written by four calls each, after those that open the file
    assert!(rt; 32 < failed && failed < 99);
    Ok(())
}

#[test]
fn a_source_that_is_too_long_is_told_by_its_name(rt: HostRuntime) -> Result<(), Fail> {
    let long = vec![in rt.alloc(); b'x'; 16_777_217]?;
    let mut tree = tree_of(rt.alloc(), &[GRAPH, LIST, A, (b"b.c", long.as_slice())])?;
    let mut disk = disk_of(rt.alloc(), b"")?;
    let (told, _) = build(rt.alloc(), &mut tree, ALL, TARGETS, &mut disk, [0, 0])?;
    assert!(rt; told.as_slice() == b"too long b.c\n".as_slice());
    assert!(rt; disk.image().is_empty());
    Ok(())
}

#[test]
fn a_file_that_is_no_store_stays(rt: HostRuntime) -> Result<(), Fail> {
    let notes = b"notes, and no store at all\n".as_slice();
    let (told, _, image) = build_whole(rt.alloc(), notes)?;
    assert!(rt; told.as_slice() == b"no store\n".as_slice());
    assert!(rt; image.as_slice() == notes);
    Ok(())
}
