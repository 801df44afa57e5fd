// A store whose file is as long as a file may be. What stands before its records isn't there: the file is sparse.
use crate::given::{Given, call_of, outcome_of, text_of};
use crate::images::{FRONT, GRAPH};
use object_values::Status;
use odin_outside::Disk;
use odin_real::{FileDisk, NamedFile};
use odin_store::StoreFault;
use std::alloc::Global;
use std::fs::{self, File, OpenOptions};
use std::io;
use std::os::unix::fs::FileExt;
use std::rt::Files;
use std::test::Fail;
use test_support::{drop_named, keep, open_store, put_named};

const PATH: &str = "store_tests.full";

// The place of the closed gate: a hundred bytes before the end of the longest file.
const GATE: u64 = 0x4000_0000 - 100;

// A front whose first start is that gate.
fn front() -> [u8; 64] {
    let mut front = *FRONT;
    front[20] = 0x3f;
    front[21] = 0xff;
    front[22] = 0xff;
    front[23] = 0x9c;
    front
}

// Makes the file, with a closed gate as its last byte.
fn make_file<R: Files<File = File>>(rt: &R) -> io::Result<()> {
    let mut options = OpenOptions::new();
    options.write(true).create(true);
    let file = options.open(rt, PATH)?;
    file.set_len(GATE + 1)?;
    file.write_all_at(&front(), 0)
}

// Opens the store and puts a text of so many bytes as `a.c`: whether that changed anything, and where the store ends.
fn putting<D: Disk>(alloc: Global, disk: &mut D, size: usize) -> Result<(bool, u64), StoreFault> {
    let mut store = open_store(alloc, disk, GRAPH)?;
    let text = vec![in alloc; b'x'; size]?;
    let text = text_of(alloc, &text)?;
    let changed = put_named(alloc, &mut store, disk, b"a.c", &text)?;
    Ok((changed, store.end()))
}

fn dropping<D: Disk>(alloc: Global, disk: &mut D) -> Result<bool, StoreFault> {
    let mut store = open_store(alloc, disk, GRAPH)?;
    drop_named(alloc, &mut store, disk, b"a.c")
}

// The shortest call. Its batch has 36 bytes.
const SHORT: Given = Given {
    tool: b"t",
    version: b"1",
    words: &[],
    params: &[],
    parts: &[],
    outs: &[],
    status: Status::Abort,
    lines: &[],
    outputs: &[],
};

fn keeping<D: Disk>(alloc: Global, disk: &mut D) -> Result<bool, StoreFault> {
    let mut store = open_store(alloc, disk, GRAPH)?;
    let call = call_of(alloc, &SHORT)?;
    let outcome = outcome_of(alloc, &SHORT)?;
    keep(alloc, &mut store, disk, &call, &outcome)
}

// How many sources and calls the store has for a graph.
fn counted<D: Disk>(
    alloc: Global,
    disk: &mut D,
    graph: &[u8; 14],
) -> Result<(usize, u64), StoreFault> {
    let store = open_store(alloc, disk, graph)?;
    Ok((store.sources().len(), store.kept().calls()))
}

const ANOTHER: &[u8; 14] = b"type d simple;";

// The place after the record of the graph, 76 bytes before the limit: a batch of 70 bytes has room with its length and its gate, and one of 71 hasn't.
const BEHIND: u64 = GATE + 24;

// The place after the put, the last byte of the longest file.
const LAST: u64 = GATE + 99;

#[test]
fn a_full_store_tells_its_end_and_the_batch(rt: HostRuntime) -> Result<(), Fail> {
    let _ = fs::remove_file(&rt, PATH);
    make_file(&rt)?;
    let mut disk = FileDisk::open(NamedFile::new(&rt, PATH));
    assert!(rt; putting(rt.alloc(), &mut disk, 49) == Err(StoreFault::Full(BEHIND, 71)));
    assert!(rt; putting(rt.alloc(), &mut disk, 48) == Ok((true, LAST)));
    assert!(rt; putting(rt.alloc(), &mut disk, 48) == Ok((false, LAST)));
    assert!(rt; dropping(rt.alloc(), &mut disk) == Err(StoreFault::Full(LAST, 8)));
    assert!(rt; keeping(rt.alloc(), &mut disk) == Err(StoreFault::Full(LAST, 36)));
    let full = counted(rt.alloc(), &mut disk, ANOTHER);
    assert!(rt; full == Err(StoreFault::Full(LAST, 19)));
    assert!(rt; counted(rt.alloc(), &mut disk, GRAPH) == Ok((1, 0)));
    fs::remove_file(&rt, PATH)?;
    Ok(())
}
