// A wasteful store is rewritten when it is opened: the file gets short, and what it holds stays, wherever that is stopped and whatever fails.
use super::stored::{Graph, Ran, Text, crashed, run_on};
use object_values::{Bytes, Memory};
use odin_fakes::{FailDisk, MemDisk};
use odin_outside::Disk;
use std::alloc::Global;
use std::test::Fail;
use test_support::{C_UNITS, only};

const TYPE_C: Graph = &[b"type c simple;"];

const UNITS: Graph = &[C_UNITS];

// Room for what these sessions write, in bytes and in calls.
const DISK_BYTES: usize = 1 << 22;

const DISK_CALLS: usize = 1 << 12;

// A file with these bytes as a disk.
fn wide_disk(alloc: Global, image: &[u8]) -> Result<MemDisk, Memory> {
    let image = Bytes::from_slice(alloc, image)?;
    MemDisk::new(alloc, image, DISK_BYTES, DISK_CALLS)
}

// Adds a command that gives a source a text of 4,096 bytes, which differs from the others by its number.
fn add_put(commands: &mut Vec<u8>, name: &[u8], number: u32) -> Result<(), Memory> {
    commands.extend_from_slice(b"put ")?;
    commands.extend_from_slice(name)?;
    commands.extend_from_slice(b" 4096\n")?;
    commands.extend_from_slice(&number.to_be_bytes())?;
    commands.resize(commands.len().saturating_add(4092), b'x')?;
    Ok(())
}

// So many edits of one source.
fn edits(alloc: Global, count: u32) -> Result<Vec<u8>, Memory> {
    let mut commands = Vec::new(alloc);
    for number in 0..count {
        add_put(&mut commands, b"a.c", number)?;
    }
    Ok(commands)
}

// The file that a run leaves of another, and what it replied.
fn go_on(
    alloc: Global,
    graph: Graph,
    image: &[u8],
    commands: &[u8],
) -> Result<(Vec<u8>, Ran), Memory> {
    let mut disk = wide_disk(alloc, image)?;
    let ran = run_on(alloc, graph, &mut disk, commands)?;
    Ok((disk.image().to_vec(alloc)?, ran))
}

// ---- the sizes

// What is asked of the file that the run before left, the replies, and the size of the file then.
const OPENINGS: &[(Text, Text, usize)] = &[
    // the copy stands after the records
    (b"", b"", 1_241_137),
    // before the start in use
    (b"", b"", 4_212),
    // and a store that isn't wasteful stays
    (b"sources\n", b"sources 1\na.c 4096\n", 4_212),
    (b"", b"", 4_212),
];

#[test]
fn a_wasteful_store_gets_short(rt: HostRuntime) -> Result<(), Fail> {
    let commands = edits(rt.alloc(), 300)?;
    let (mut image, ran) = go_on(rt.alloc(), TYPE_C, b"", commands.as_slice())?;
    assert!(rt; ran.status == 0 && image.len() == 1_236_989);
    for (commands, replies, size) in OPENINGS {
        let (next, ran) = go_on(rt.alloc(), TYPE_C, image.as_slice(), commands)?;
        assert!(rt; ran.replied(replies) && next.len() == *size, "{size}");
        image = next;
    }
    Ok(())
}

// As many sources as there are numbers, each with a text of its own.
fn sources(alloc: Global, count: u32) -> Result<Vec<u8>, Memory> {
    let mut commands = Vec::new(alloc);
    for number in 0..count {
        let digits = [
            b's',
            b'0' + (number / 100 % 10) as u8,
            b'0' + (number / 10 % 10) as u8,
            b'0' + (number % 10) as u8,
        ];
        add_put(&mut commands, &digits, number)?;
    }
    Ok(commands)
}

#[test]
fn a_store_that_is_not_wasteful_stays(rt: HostRuntime) -> Result<(), Fail> {
    // all of it is live
    let commands = sources(rt.alloc(), 260)?;
    let (image, _) = go_on(rt.alloc(), TYPE_C, b"", commands.as_slice())?;
    let (next, _) = go_on(rt.alloc(), TYPE_C, image.as_slice(), b"")?;
    assert!(rt; image.len() > 1 << 20 && next == image);
    // a file of less than a MiB has no waste that counts
    let commands = edits(rt.alloc(), 250)?;
    let (image, _) = go_on(rt.alloc(), TYPE_C, b"", commands.as_slice())?;
    let (next, _) = go_on(rt.alloc(), TYPE_C, image.as_slice(), b"")?;
    assert!(rt; image.len() < 1 << 20 && next == image);
    Ok(())
}

// ---- what it holds

const BUILD: Text =
    b"put m.sm 8\na.c\nb.c\nput a.c 4\nx=1\nput b.c 11\nx=2\n//!old\nask m.sm:exe\n";

const ASKED: Text = b"ask m.sm:exe\nkept\nsources\n";

const ANSWERED: Text =
    b"object warning simple 8\nx=1\nx=2\n\nmessages 1\nwarning b.c:o old\nkept 5\nsources 4\na.c 4\nb.c 11\nm.sm 8\nz.c 4096\n";

// The file of a project that was built, and of a source that was edited often since.
fn wasteful(alloc: Global) -> Result<Vec<u8>, Memory> {
    let mut commands = Vec::new(alloc);
    commands.extend_from_slice(BUILD)?;
    for number in 0..300 {
        add_put(&mut commands, b"z.c", number)?;
    }
    let (image, _) = go_on(alloc, UNITS, b"", commands.as_slice())?;
    Ok(image)
}

// Whether a run over a disk answers as the project does, and starts nothing.
fn answers<D: Disk>(alloc: Global, disk: &mut D) -> Result<bool, Memory> {
    let ran = run_on(alloc, UNITS, disk, ASKED)?;
    Ok(ran.replied(ANSWERED) && ran.starts.count() == 0)
}

// Whether it does over a file.
fn holds(alloc: Global, image: &[u8]) -> Result<bool, Memory> {
    let mut disk = wide_disk(alloc, image)?;
    answers(alloc, &mut disk)
}

// Whether the file of an opening has the size of the one before, and whether it is short: the copy is put after the records, then before the start in use,
// and then the store isn't wasteful.
const FILES: &[(bool, bool)] = &[(false, false), (false, true), (true, true)];

#[test]
fn a_rewritten_store_holds_what_it_held(rt: HostRuntime) -> Result<(), Fail> {
    let mut image = wasteful(rt.alloc())?;
    for (stays, is_short) in FILES {
        let mut disk = wide_disk(rt.alloc(), image.as_slice())?;
        assert!(rt; answers(rt.alloc(), &mut disk)?);
        let next = disk.image().to_vec(rt.alloc())?;
        assert!(rt; (next.len() == image.len()) == *stays && (next.len() < 1 << 14) == *is_short);
        image = next;
    }
    Ok(())
}

// ---- stops and faults

// The file after so many openings.
fn opened(alloc: Global, count: u32) -> Result<Vec<u8>, Memory> {
    let mut image = wasteful(alloc)?;
    for _ in 0..count {
        image = go_on(alloc, UNITS, image.as_slice(), b"")?.0;
    }
    Ok(image)
}

// The calls of a rewriting, which are the last ones of an opening.
const REWRITING: usize = 8;

// What a stop leaves of the calls since the last sync: four ways of the first of them, and then by chance.
const CHOICES: &[u64] = &[0, 1, 2, 3, 7, 15, 23, 31, 39, 47, 55, 63];

// Whether what is held is held in each file that a stop within the rewriting of an opening leaves.
fn stops_well(alloc: Global, image: &[u8]) -> Result<bool, Memory> {
    let mut disk = wide_disk(alloc, image)?;
    let _ = run_on(alloc, UNITS, &mut disk, b"")?;
    for moment in disk.calls().saturating_sub(REWRITING)..=disk.calls() {
        for choice in CHOICES {
            let left = crashed(alloc, &disk, moment, *choice)?;
            if !holds(alloc, left.as_slice())? {
                return Ok(false);
            }
        }
    }
    Ok(true)
}

#[test]
fn a_stop_within_a_rewrite_loses_nothing(rt: HostRuntime) -> Result<(), Fail> {
    // the copy is put after the records first, and then before the start in use
    for count in 0..2 {
        let image = opened(rt.alloc(), count)?;
        assert!(rt; stops_well(rt.alloc(), image.as_slice())?, "{count}");
    }
    Ok(())
}

// Whether a run whose disk fails at a call ends with status 3, and what is held is held afterwards. `None` where there was no such call.
fn fails_well(alloc: Global, image: &[u8], number: u32) -> Result<Option<bool>, Memory> {
    let mut disk = FailDisk::new(wide_disk(alloc, image)?, only(alloc, number)?);
    let ran = run_on(alloc, UNITS, &mut disk, b"")?;
    if ran.status == 0 {
        return Ok(None);
    }
    let held = holds(alloc, disk.inner().image())?;
    Ok(Some(ran.status == 3 && ran.output.is_empty() && held))
}

#[test]
fn a_fault_within_a_rewrite_loses_nothing(rt: HostRuntime) -> Result<(), Fail> {
    for count in 0..2 {
        let image = opened(rt.alloc(), count)?;
        let mut faults: u32 = 0;
        for number in 1..2000 {
            match fails_well(rt.alloc(), image.as_slice(), number)? {
                Some(well) => assert!(rt; well, "{number}"),
                None => break,
            }
            faults = number;
        }
        // the calls of the rewriting are among them
        assert!(rt; faults >= 6);
    }
    Ok(())
}
