// Runs one after another over one file: what was acknowledged is there, and what was kept is not run again.
use super::stored::{NONE, Ran, Text, crashed, disk_of, run_on, status_on};
use object_values::{Bytes, Memory, Seq};
use odin_fakes::{FailDisk, FailSink, FailTools, TableTools};
use odin_outside::Disk;
use std::alloc::Global;
use std::test::Fail;
use test_support::{C_UNITS, only, sink};

// A run over the graph of units.
fn session<D: Disk>(alloc: Global, disk: &mut D, text: &[u8]) -> Result<Ran, Memory> {
    run_on(alloc, &[C_UNITS], disk, text)
}

// Whether a run over a disk takes all of the input, with this output and so many starts.
fn goes<D: Disk>(
    alloc: Global,
    disk: &mut D,
    text: &[u8],
    want: &[u8],
    starts: usize,
) -> Result<bool, Memory> {
    let ran = session(alloc, disk, text)?;
    Ok(ran.replied(want) && ran.starts.count() == starts)
}

// An input, its replies, and how many tools are started.
type Row = (Text, Text, usize);

const EXE: Text = b"object ok simple 4\nx=1\n\nmessages 0\n";

// Each run goes on with the file that the one before left.
const RUNS: &[Row] = &[
    (
        b"put m.sm 4\na.c\nput a.c 4\nx=1\nask m.sm:exe\nask m.sm:exe\nkept\nsources\n",
        b"put m.sm 4\nput a.c 4\nobject ok simple 4\nx=1\n\nmessages 0\nobject ok simple 4\nx=1\n\nmessages 0\nkept 3\nsources 2\na.c 4\nm.sm 4\n",
        3,
    ),
    (
        b"ask m.sm:exe\nkept\nsources\n",
        b"object ok simple 4\nx=1\n\nmessages 0\nkept 3\nsources 2\na.c 4\nm.sm 4\n",
        0,
    ),
    // an edit makes the calls that it changes
    (
        b"put a.c 11\nx=1\n//!old\nask m.sm:exe\nkept\n",
        b"put a.c 11\nobject warning simple 4\nx=1\n\nmessages 1\nwarning a.c:o old\nkept 5\n",
        2,
    ),
    (
        b"ask m.sm:exe\n",
        b"object warning simple 4\nx=1\n\nmessages 1\nwarning a.c:o old\n",
        0,
    ),
    // and the old text none
    (
        b"put a.c 4\nx=1\nask m.sm:exe\nkept\n",
        b"put a.c 4\nobject ok simple 4\nx=1\n\nmessages 0\nkept 5\n",
        0,
    ),
    (
        b"drop a.c\nask m.sm:exe\nkept\nsources\n",
        b"dropped a.c\nobject abort none 0\nmessages 1\nabort a.c no source a.c\nkept 5\nsources 1\nm.sm 4\n",
        0,
    ),
];

// Whether each run goes so.
fn all_go(alloc: Global) -> Result<bool, Memory> {
    let mut image = Bytes::new(alloc);
    for (text, want, starts) in RUNS {
        let mut disk = disk_of(alloc, image.as_slice())?;
        if !goes(alloc, &mut disk, text, want, *starts)? {
            return Ok(false);
        }
        image = Bytes::from_slice(alloc, disk.image())?;
    }
    Ok(true)
}

#[test]
fn a_run_goes_on_with_what_the_one_before_kept(rt: HostRuntime) -> Result<(), Fail> {
    assert!(rt; all_go(rt.alloc())?);
    Ok(())
}

// The file that a run leaves, and how many calls of the disk there were.
fn left_by(alloc: Global, text: &[u8]) -> Result<(Vec<u8>, usize), Memory> {
    let mut disk = disk_of(alloc, b"")?;
    let _ = session(alloc, &mut disk, text)?;
    Ok((disk.image().to_vec(alloc)?, disk.calls()))
}

#[test]
fn an_edit_that_changes_nothing_writes_nothing(rt: HostRuntime) -> Result<(), Fail> {
    let once = left_by(rt.alloc(), b"put a.c 4\nx=1\n")?;
    let twice = left_by(rt.alloc(), b"put a.c 4\nx=1\nput a.c 4\nx=1\n")?;
    let dropped = left_by(rt.alloc(), b"put a.c 4\nx=1\ndrop b.c\n")?;
    assert!(rt; once == twice && once == dropped);
    Ok(())
}

// ---- outcomes of every kind

// A text of a source, with its length, and the reply to what is compiled of it.
const KINDS: &[(Text, Text)] = &[
    (
        b"put a.c 11\nx=1\n//!old\n",
        b"object warning simple 4\nx=1\n\nmessages 1\nwarning a.c:o old\n",
    ),
    (
        b"put a.c 12\n!exit 1\nx=1\n",
        b"object error simple 4\nx=1\n\nmessages 0\n",
    ),
    (
        b"put a.c 8\n!signal\n",
        b"object abort none 0\nmessages 1\nabort a.c:o tool cc ended by a signal\n",
    ),
    (
        b"put a.c 6\n!none\n",
        b"object abort none 0\nmessages 1\nabort a.c:o no output o\n",
    ),
];

// Whether the reply is the same in this run and in the next one, which starts no tool.
fn is_kept(alloc: Global, put: &[u8], reply: &[u8]) -> Result<bool, Memory> {
    let mut disk = disk_of(alloc, b"")?;
    let edited = session(alloc, &mut disk, put)?;
    let first = goes(alloc, &mut disk, b"ask a.c:o\n", reply, 2)?;
    let again = goes(alloc, &mut disk, b"ask a.c:o\n", reply, 0)?;
    Ok(edited.status == 0 && first && again)
}

#[test]
fn outcomes_of_every_kind_are_kept(rt: HostRuntime) -> Result<(), Fail> {
    for (put, reply) in KINDS {
        assert!(rt; is_kept(rt.alloc(), put, reply)?);
    }
    Ok(())
}

// The output of three asks, of which the first is refused since a start or an end fails, and how many events were noted.
fn refused_first(alloc: Global, number: u32) -> Result<(u8, Vec<u8>, usize), Memory> {
    let mut tools = FailTools::new(
        TableTools::toy(alloc, Seq::new(alloc)),
        only(alloc, number)?,
    );
    let mut disk = disk_of(alloc, b"")?;
    let mut output = sink(alloc, 20_000, 5000)?;
    let text = b"put a.c 4\nx=1\nask a.c:o\nkept\nask a.c:o\nkept\nask a.c:o\nkept\n";
    let status = status_on(alloc, &[C_UNITS], &mut disk, text, &mut output, &mut tools)?;
    Ok((
        status,
        output.taken().to_vec(alloc)?,
        tools.inner().log().len(),
    ))
}

// The replies where so many calls are kept of the ask that is refused.
fn replies_after(alloc: Global, kept: Text) -> Result<Vec<u8>, Memory> {
    let mut replies = Vec::new(alloc);
    replies.extend_from_slice(b"put a.c 4\nrefused tool start\n")?;
    replies.extend_from_slice(kept)?;
    for _ in 0..2 {
        replies.extend_from_slice(EXE)?;
        replies.extend_from_slice(b"kept 2\n")?;
    }
    Ok(replies)
}

#[test]
fn a_call_that_was_not_run_is_run_by_the_next_ask(rt: HostRuntime) -> Result<(), Fail> {
    for (number, kept) in [
        (1, b"kept 0\n".as_slice()),
        (2, b"kept 0\n"),
        (3, b"kept 1\n"),
        (4, b"kept 1\n"),
    ] {
        let (status, output, _) = refused_first(rt.alloc(), number)?;
        assert!(rt; status == 0 && output == replies_after(rt.alloc(), kept)?);
    }
    Ok(())
}

// ---- files that are not ours

// A file, and the last line of a run over it.
const STRANGE: &[(Text, Text)] = &[
    (b"hello", b"store: not ours at 0\n"),
    (b"ODINSTO2", b"store: not ours at 0\n"),
];

// Whether a run over the file ends with this line, and leaves it as it was.
fn is_refused(alloc: Global, image: &[u8], line: &[u8]) -> Result<bool, Memory> {
    let mut disk = disk_of(alloc, image)?;
    let ran = session(alloc, &mut disk, b"put a.c 0\nask a.c\n")?;
    let told = ran.status == 7 && ran.output.as_slice() == line && ran.starts == NONE;
    Ok(told && disk.image() == image)
}

// The status where the line of such a file is not written.
fn unwritten(alloc: Global, image: &[u8]) -> Result<u8, Memory> {
    let mut disk = disk_of(alloc, image)?;
    let mut output = FailSink::new(sink(alloc, 100, 7)?, only(alloc, 1)?);
    let mut tools = TableTools::toy(alloc, Seq::new(alloc));
    status_on(alloc, &[C_UNITS], &mut disk, b"", &mut output, &mut tools)
}

#[test]
fn a_file_that_is_not_ours_is_left_alone(rt: HostRuntime) -> Result<(), Fail> {
    for (image, line) in STRANGE {
        assert!(rt; is_refused(rt.alloc(), image, line)?);
        assert!(rt; unwritten(rt.alloc(), image)? == 5);
    }
    Ok(())
}

// ---- stops and faults

// A session, command by command, with its replies.
const STEPS: [(Text, Text); 7] = [
    (b"put m.sm 4\na.c\n", b"put m.sm 4\n"),
    (b"put a.c 4\nx=1\n", b"put a.c 4\n"),
    (b"ask m.sm:exe\n", EXE),
    (b"put b.c 4\ny=2\n", b"put b.c 4\n"),
    (b"drop b.c\n", b"dropped b.c\n"),
    (
        b"ask b.c:o\n",
        b"object abort none 0\nmessages 1\nabort b.c no source b.c\n",
    ),
    (b"kept\n", b"kept 3\n"),
];

// The commands of some steps, and their replies.
fn played(alloc: Global, steps: &[(Text, Text)]) -> Result<(Vec<u8>, Vec<u8>), Memory> {
    let mut text = Vec::new(alloc);
    let mut replies = Vec::new(alloc);
    for (command, reply) in steps {
        text.extend_from_slice(command)?;
        replies.extend_from_slice(reply)?;
    }
    Ok((text, replies))
}

// The place of the step that drops a source.
const DROP: usize = 4;

// The replies from there on where the source was dropped before the session ended.
fn dropped_before(alloc: Global) -> Result<Vec<u8>, Memory> {
    let mut replies = Vec::new(alloc);
    replies.extend_from_slice(b"no source b.c\n")?;
    let (_, others) = played(alloc, &STEPS[DROP + 1..])?;
    replies.extend_from_slice(others.as_slice())?;
    Ok(replies)
}

// Whether the steps from one on go so over an image.
fn go_on(alloc: Global, image: &[u8], from: usize) -> Result<bool, Memory> {
    let mut disk = disk_of(alloc, image)?;
    let (text, replies) = played(alloc, &STEPS[from.min(7)..])?;
    let ran = session(alloc, &mut disk, text.as_slice())?;
    let as_dropped = from == DROP && ran.replied(dropped_before(alloc)?.as_slice());
    Ok(ran.replied(replies.as_slice()) || as_dropped)
}

// How many steps the output has the replies of.
fn answered(alloc: Global, output: &[u8]) -> Result<Option<usize>, Memory> {
    for count in 0..STEPS.len() + 1 {
        let (_, replies) = played(alloc, &STEPS[..count.min(7)])?;
        if replies.as_slice() == output {
            return Ok(Some(count));
        }
    }
    Ok(None)
}

// What comes of a session whose disk fails at a call: `None` where it went wrong, else whether it came to its end.
fn fails_well(alloc: Global, number: u32) -> Result<Option<bool>, Memory> {
    let mut disk = FailDisk::new(disk_of(alloc, b"")?, only(alloc, number)?);
    let (text, replies) = played(alloc, &STEPS)?;
    let ran = session(alloc, &mut disk, text.as_slice())?;
    if ran.status == 0 {
        return Ok(ran.replied(replies.as_slice()).then_some(true));
    }
    let Some(count) = answered(alloc, ran.output.as_slice())? else {
        return Ok(None);
    };
    let goes_on = go_on(alloc, disk.inner().image(), count)?;
    Ok((ran.status == 3 && goes_on).then_some(false))
}

#[test]
fn a_fault_of_the_disk_ends_a_session_that_can_be_gone_on_with(
    rt: HostRuntime,
) -> Result<(), Fail> {
    let mut faults = 0;
    for number in 1..100 {
        match fails_well(rt.alloc(), number)? {
            Some(true) => break,
            Some(false) => faults = number,
            None => assert!(rt; false, "{number}"),
        }
    }
    let (_, calls) = left_by(rt.alloc(), played(rt.alloc(), &STEPS)?.0.as_slice())?;
    assert!(rt; faults as usize == calls);
    Ok(())
}

// Whether a session can be gone on with that was stopped within a step, from 1; 0 is the opening.
fn stops_well(alloc: Global, step: usize) -> Result<bool, Memory> {
    let done = step.saturating_sub(1);
    let (before, _) = played(alloc, &STEPS[..done.min(7)])?;
    let first = match step {
        0 => 0,
        _ => left_by(alloc, before.as_slice())?.1.saturating_add(1),
    };
    let (text, _) = played(alloc, &STEPS[..step.min(7)])?;
    let mut disk = disk_of(alloc, b"")?;
    let _ = session(alloc, &mut disk, text.as_slice())?;
    for moment in first..=disk.calls() {
        for choice in 0..8 {
            let image = crashed(alloc, &disk, moment, choice)?;
            if !go_on(alloc, image.as_slice(), done)? {
                return Ok(false);
            }
        }
    }
    Ok(true)
}

#[test]
fn a_stop_leaves_a_session_that_can_be_gone_on_with(rt: HostRuntime) -> Result<(), Fail> {
    for step in 0..=STEPS.len() {
        assert!(rt; stops_well(rt.alloc(), step)?, "{step}");
    }
    Ok(())
}
