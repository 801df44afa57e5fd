// Each object once, on small tables.
use super::disks::crashed;
use object_values::{Bytes, Memory, Seq, Text};
use odin_fakes::{
    CrashDisk, FailDisk, FailSink, FailSource, FailTree, MemDisk, MemSink, MemSource, MemTree,
};
use odin_outside::{Disk, Failed, FileBody, Sink, Source, Tree, TreeFault};
use std::alloc::Global;
use std::test::Fail;

// A list of numbers, as the plans of failures take it.
fn numbers(alloc: Global, items: &[u32]) -> Result<Seq<u32>, Memory> {
    Ok(Seq::from_vec(items.to_vec(alloc)?))
}

// Whether the next read into five bytes gives these.
fn gives(source: &mut MemSource, wanted: &[u8]) -> bool {
    let mut buffer = [0; 5];
    match source.read(&mut buffer) {
        Ok(count) => &buffer[..count] == wanted,
        Err(Failed) => false,
    }
}

const PIECES: &[&[u8]] = &[b"abc", b"def", b"gh", b"", b""];

#[test]
fn gives_input_in_pieces(rt: HostRuntime) -> Result<(), Fail> {
    let mut source = MemSource::new(Bytes::from_slice(rt.alloc(), b"abcdefgh")?, 3);
    for wanted in PIECES {
        assert!(rt; gives(&mut source, wanted));
    }
    Ok(())
}

// A source of four bytes in pieces of two whose reads 2 and 4 fail.
fn failing_source(alloc: Global) -> Result<FailSource, Memory> {
    let fails = numbers(alloc, &[4, 2])?;
    let source = MemSource::new(Bytes::from_slice(alloc, b"abcd")?, 2);
    Ok(FailSource::new(source, fails))
}

const READS: &[Result<usize, Failed>] = &[Ok(2), Err(Failed), Ok(2), Err(Failed), Ok(0), Ok(0)];

#[test]
fn fails_at_chosen_reads(rt: HostRuntime) -> Result<(), Fail> {
    let mut source = failing_source(rt.alloc())?;
    let mut buffer = [0; 8];
    for wanted in READS {
        assert!(rt; source.read(&mut buffer) == *wanted);
    }
    Ok(())
}

// Whether writes of these bytes take so many each time, or fail.
fn takes(sink: &mut impl Sink, bytes: &[u8], wanted: &[Result<usize, Failed>]) -> bool {
    if bytes.is_empty() {
        return false;
    }
    for result in wanted {
        if sink.write(bytes) != *result {
            return false;
        }
    }
    true
}

// Makes room for four bytes, in two calls.
fn make_room(sink: &mut MemSink) -> Result<(), Memory> {
    sink.reserve(1)?;
    sink.reserve(3)
}

// Whether a sink for pieces of three bytes takes what it has room for.
fn takes_hello(sink: &mut MemSink) -> Result<bool, Memory> {
    if !takes(sink, b"x", &[Err(Failed)]) {
        return Ok(false);
    }
    make_room(sink)?;
    Ok(takes(sink, b"hello", &[Ok(3), Ok(1), Err(Failed)]) && sink.taken() == b"helh".as_slice())
}

#[test]
fn takes_output_while_there_is_room(rt: HostRuntime) -> Result<(), Fail> {
    let mut sink = MemSink::new(rt.alloc(), 3);
    assert!(rt; takes_hello(&mut sink)?);
    Ok(())
}

// A sink with room for two bytes whose writes 1 and 3 fail.
fn failing_sink(alloc: Global) -> Result<FailSink, Memory> {
    let fails = numbers(alloc, &[1, 3])?;
    let mut sink = MemSink::new(alloc, 9);
    sink.reserve(2)?;
    Ok(FailSink::new(sink, fails))
}

const WRITES: &[Result<usize, Failed>] = &[Err(Failed), Ok(1), Err(Failed), Ok(1), Err(Failed)];

// Whether the chosen writes fail and the others are taken.
fn takes_the_others(sink: &mut FailSink) -> bool {
    takes(sink, b"x", WRITES) && sink.inner().taken() == b"xx".as_slice()
}

#[test]
fn fails_at_chosen_writes(rt: HostRuntime) -> Result<(), Fail> {
    let mut sink = failing_sink(rt.alloc())?;
    assert!(rt; takes_the_others(&mut sink));
    Ok(())
}

// A file with this name and these bytes.
fn file(alloc: Global, name: &[u8], body: &[u8]) -> Result<FileBody, Memory> {
    Ok(FileBody {
        name: Bytes::from_slice(alloc, name)?,
        body: Text::of(Bytes::from_slice(alloc, body)?)?,
    })
}

// Names of files with their bytes.
const FILES: &[(&[u8], &[u8])] = &[(b"a", b"one"), (b"b", b"two"), (b"a", b"three")];

// Adds the files of the table to a list.
fn put_files(alloc: Global, files: &mut Seq<FileBody>) -> Result<(), Memory> {
    for (name, body) in FILES {
        files.push(file(alloc, name, body)?)?;
    }
    Ok(())
}

// A tree of the files whose fourth read fails.
fn failing_tree(alloc: Global) -> Result<FailTree, Memory> {
    let fails = numbers(alloc, &[4])?;
    let mut files = Seq::new(alloc);
    put_files(alloc, &mut files)?;
    Ok(FailTree::new(MemTree::new(files), fails))
}

// Whether the read of a file gives these bytes, or none where it is not there, or fails so.
fn reads(
    alloc: Global,
    tree: &mut FailTree,
    name: &[u8],
    wanted: Result<Option<&[u8]>, TreeFault>,
) -> bool {
    match tree.read(alloc, name) {
        Ok(Some(body)) => wanted == Ok(Some(body.as_slice())),
        Ok(None) => wanted == Ok(None),
        Err(fault) => wanted == Err(fault),
    }
}

// Names of files, and what their reads give.
const FOUND: &[(&[u8], Result<Option<&[u8]>, TreeFault>)] = &[
    (b"a", Ok(Some(b"one"))),
    (b"b", Ok(Some(b"two"))),
    (b"c", Ok(None)),
    (b"a", Err(TreeFault::Failed)),
];

#[test]
fn gives_the_first_file_of_a_name(rt: HostRuntime) -> Result<(), Fail> {
    let mut tree = failing_tree(rt.alloc())?;
    for (name, wanted) in FOUND {
        assert!(rt; reads(rt.alloc(), &mut tree, name, *wanted));
    }
    Ok(())
}

// A file that is one byte longer than what a read gives.
fn long_file(alloc: Global) -> Result<FileBody, Memory> {
    Ok(FileBody {
        name: Bytes::from_slice(alloc, b"a")?,
        body: Text::of(Bytes::from_vec(vec![in alloc; 7u8; 16_777_218]?))?,
    })
}

// A tree of one file that is longer than the limit.
fn long_tree(alloc: Global) -> Result<MemTree, Memory> {
    let mut files = Seq::new(alloc);
    files.push(long_file(alloc)?)?;
    Ok(MemTree::new(files))
}

// Whether a read gives one byte more than the limit.
fn is_cut(alloc: Global, tree: &mut MemTree) -> bool {
    let answer = tree.read(alloc, b"a");
    matches!(&answer, Ok(Some(body)) if body.len() == 16_777_217)
}

#[test]
fn cuts_a_file_at_the_limit(rt: HostRuntime) -> Result<(), Fail> {
    let mut tree = long_tree(rt.alloc())?;
    assert!(rt; is_cut(rt.alloc(), &mut tree));
    Ok(())
}

// A call on a disk: a write at an offset, a cut to a size, a sync, or the asking for the size.
#[derive(Clone, Copy)]
enum Step {
    Write(u8, &'static [u8; 4]),
    Cut(u8),
    Sync,
    Size,
}

// Writes where the offset lies within the file.
fn write(disk: &mut impl Disk, start: u8, bytes: &[u8; 4]) -> Result<(), Failed> {
    let start = u64::from(start);
    if disk.size()? < start {
        return Err(Failed);
    }
    disk.write_at(start, bytes)
}

// Cuts where the file is so long.
fn cut(disk: &mut impl Disk, size: u8) -> Result<(), Failed> {
    let size = u64::from(size);
    if disk.size()? < size {
        return Err(Failed);
    }
    disk.cut(size)
}

// The size where it is asked for, and else 0 where the call is done.
fn answer(disk: &mut impl Disk, step: Step) -> Result<u64, Failed> {
    match step {
        Step::Write(start, bytes) => write(disk, start, bytes)?,
        Step::Cut(size) => cut(disk, size)?,
        Step::Sync => disk.sync()?,
        Step::Size => return disk.size(),
    }
    Ok(0)
}

// How many calls are answered as it is wanted, before the first that is not.
fn calls_done(disk: &mut impl Disk, calls: &[(Step, Result<u64, Failed>)]) -> usize {
    for (place, (step, wanted)) in calls.iter().enumerate() {
        if answer(disk, *step) != *wanted {
            return place;
        }
    }
    calls.len()
}

// Calls, and the size where it is asked for, or 0, or the failure.
const ROOM: &[(Step, Result<u64, Failed>)] = &[
    (Step::Write(1, b"WXYZ"), Ok(0)),
    (Step::Write(0, b"1234"), Err(Failed)),
    (Step::Cut(3), Ok(0)),
    (Step::Sync, Ok(0)),
    (Step::Size, Ok(3)),
    (Step::Sync, Err(Failed)),
];

// A disk with the file `abc`, and room for seven bytes and seven calls.
fn small_disk(alloc: Global) -> Result<MemDisk, Memory> {
    let image = Bytes::from_slice(alloc, b"abc")?;
    MemDisk::new(alloc, image, 7, 7)
}

// Whether the calls are answered as the table says, and the file holds what was kept.
fn keeps_the_file(disk: &mut MemDisk) -> bool {
    calls_done(disk, ROOM) == 6 && disk.image() == b"aWX".as_slice()
}

#[test]
fn keeps_a_file_while_there_is_room(rt: HostRuntime) -> Result<(), Fail> {
    let mut disk = small_disk(rt.alloc())?;
    assert!(rt; keeps_the_file(&mut disk));
    Ok(())
}

// A disk with an empty file whose calls 4 and 5 fail.
fn failing_disk(alloc: Global) -> Result<FailDisk, Memory> {
    let fails = numbers(alloc, &[4, 5])?;
    let disk = MemDisk::new(alloc, Bytes::new(alloc), 4, 9)?;
    Ok(FailDisk::new(disk, fails))
}

const CHOSEN_CALLS: &[(Step, Result<u64, Failed>)] = &[
    (Step::Write(0, b"abcd"), Ok(0)),
    (Step::Cut(0), Err(Failed)),
    (Step::Sync, Err(Failed)),
    (Step::Size, Ok(4)),
];

// Whether the chosen calls fail and the others are done.
fn does_the_others(disk: &mut FailDisk) -> bool {
    calls_done(disk, CHOSEN_CALLS) == 4 && disk.inner().image() == b"abcd".as_slice()
}

#[test]
fn fails_at_chosen_disk_calls(rt: HostRuntime) -> Result<(), Fail> {
    let mut disk = failing_disk(rt.alloc())?;
    assert!(rt; does_the_others(&mut disk));
    Ok(())
}

// The number of a call, a choice, and what a stop within the call leaves.
const TORN: &[(u32, u64, &[u8])] = &[
    (0, 1, b"abcdef"),
    (2, 0, b"abcd"),
    (2, 1, b"abcdef"),
    (2, 2, b"abcde"),
    (2, 3, b"abcd\xff\xff"),
    // the cut is whole, and the write after it is torn
    (4, 0o00, b"abcWXYZ"),
    (4, 0o10, b"abcd"),
    (4, 0o20, b"abcWX"),
    (4, 0o30, b"abcd\0YZ"),
    (4, 0o40, b"abc\0\0\0\0"),
    (4, 0o50, b"abc\x01\x01\x01\x01"),
    (4, 0o60, b"abc\xff\xff\xff\xff"),
    // the cut is not done
    (4, 0o01, b"abcWXYZ"),
    (4, 0o11, b"abcdef"),
    // within the sync the write may still be torn
    (5, 0o00, b"abcWXYZ"),
    (5, 0o10, b"abcd"),
];

// Whether a stop within this call, with this choice, leaves these bytes.
fn tears(
    alloc: Global,
    disk: &CrashDisk,
    moment: u32,
    choice: u64,
    wanted: &[u8],
) -> Result<bool, Memory> {
    let image = crashed(alloc, disk, moment, choice)?;
    Ok(image.as_slice() == wanted)
}

// The call and the choice of the first row whose stop leaves something else.
fn first_wrong(alloc: Global, disk: &CrashDisk) -> Result<Option<(u32, u64)>, Memory> {
    for (moment, choice, wanted) in TORN {
        if !tears(alloc, disk, *moment, *choice, wanted)? {
            return Ok(Some((*moment, *choice)));
        }
    }
    Ok(None)
}

const CALLS: &[(Step, Result<u64, Failed>)] = &[
    (Step::Cut(4), Ok(0)),
    (Step::Write(3, b"WXYZ"), Ok(0)),
    (Step::Sync, Ok(0)),
];

// A disk with the file `abcdef`.
fn crash_disk(alloc: Global) -> Result<CrashDisk, Memory> {
    let image = Bytes::from_slice(alloc, b"abcdef")?;
    CrashDisk::new(alloc, image, 9, 9)
}

// Whether the calls are done, and are read.
fn is_written(disk: &mut CrashDisk) -> bool {
    calls_done(disk, CALLS) == 3 && disk.image() == b"abcWXYZ".as_slice()
}

#[test]
fn tears_what_is_not_synced(rt: HostRuntime) -> Result<(), Fail> {
    let mut disk = crash_disk(rt.alloc())?;
    assert!(rt; is_written(&mut disk));
    let wrong = first_wrong(rt.alloc(), &disk)?;
    assert_eq!(rt; wrong, None);
    Ok(())
}

// What a stop within the write leaves by chance, which begins with this number.
fn by_chance(alloc: Global, disk: &CrashDisk, number: u64) -> Result<Bytes, Memory> {
    crashed(alloc, disk, 4, 0o70 + 0o100 * (number % 1000))
}

// How many of eight such images are neither that before the write nor that after it, where each is one that may be left.
fn count_mixed(alloc: Global, disk: &CrashDisk) -> Result<Option<usize>, Memory> {
    let mut mixed: usize = 0;
    for number in 0..8 {
        let left = by_chance(alloc, disk, number)?;
        let image = left.as_slice();
        if !image.starts_with(b"abc") || image.len() < 4 || image.len() > 7 {
            return Ok(None);
        }
        if image != b"abcd".as_slice() && image != b"abcWXYZ".as_slice() {
            mixed = mixed.saturating_add(1);
        }
    }
    Ok(Some(mixed))
}

#[test]
fn tears_by_chance(rt: HostRuntime) -> Result<(), Fail> {
    let mut disk = crash_disk(rt.alloc())?;
    assert!(rt; is_written(&mut disk));
    let mixed = count_mixed(rt.alloc(), &disk)?;
    assert!(rt; mixed.is_some_and(|count| count >= 4));
    Ok(())
}

// Writes the first byte so many times, and asks for the size after each.
fn write_often(disk: &mut CrashDisk, count: usize) -> Result<(), Failed> {
    for _ in 0..count {
        disk.write_at(0, b"x")?;
        disk.size()?;
    }
    Ok(())
}

// Whether a stop after 40,000 calls leaves what a read gives, and one by chance a file of that size.
fn stands_many_calls(alloc: Global, disk: &mut CrashDisk) -> Result<bool, Memory> {
    if write_often(disk, 20_000).is_err() {
        return Ok(false);
    }
    let whole = crashed(alloc, disk, 40_000, 0)?;
    let torn = crashed(alloc, disk, 40_000, 7)?;
    Ok(whole.as_slice() == b"xbcdef".as_slice() && torn.as_slice().ends_with(b"bcdef"))
}

#[test]
fn gives_images_after_many_calls(rt: HostRuntime) -> Result<(), Fail> {
    let image = Bytes::from_slice(rt.alloc(), b"abcdef")?;
    let mut disk = CrashDisk::new(rt.alloc(), image, 20_000, 40_000)?;
    assert!(rt; stands_many_calls(rt.alloc(), &mut disk)?);
    Ok(())
}
