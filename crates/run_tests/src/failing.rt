// Each call of each object of the outside fails in turn while a program is edited and asked for: the run ends with the status of the cause, and the
// next one goes on with its file.
use super::rows::WARNING_AND_BACK as STEPS;
use super::stored::{
    Ran, Starts, Step, Text, behind, commands_of, disk_of, front, replies_of, run_on, starts_of,
};
use object_values::{Memory, Seq};
use odin_fakes::{FailDisk, FailSink, FailSource, FailTools, FailTree, TableTools};
use odin_shell::run;
use std::alloc::Global;
use std::test::Fail;
use test_support::{C_UNITS, only, owned, sink, source, tree_of};

// An object of the outside.
#[derive(Clone, Copy, PartialEq, Eq)]
enum Object {
    Source,
    Sink,
    Tree,
    Disk,
    Tools,
}

// A call of an object, by its number from 1.
#[derive(Clone, Copy)]
struct Call {
    object: Object,
    number: u32,
}

impl Call {
    // The numbers of the calls of an object that fail where this one does.
    fn plan(self, alloc: Global, object: Object) -> Result<Seq<u32>, Memory> {
        if self.object == object {
            only(alloc, self.number)
        } else {
            Ok(Seq::new(alloc))
        }
    }
}

// How many bytes are read or written at once.
const PIECE: usize = 7;

// A run in which a call fails, and the file that it left.
#[derive(Drop)]
struct Faulty {
    ran: Ran,
    image: Vec<u8>,
}

// A run over no file in which this call fails.
fn run_with_fault(alloc: Global, call: Call, commands: &[u8]) -> Result<Faulty, Memory> {
    let words = owned(alloc, &["odin", "g0"])?;
    let mut input = FailSource::new(
        source(alloc, commands, PIECE)?,
        call.plan(alloc, Object::Source)?,
    );
    let mut output = FailSink::new(sink(alloc, 20_000, PIECE)?, call.plan(alloc, Object::Sink)?);
    let mut tree = FailTree::new(
        tree_of(alloc, &[(b"g0", C_UNITS)])?,
        call.plan(alloc, Object::Tree)?,
    );
    let mut disk = FailDisk::new(disk_of(alloc, b"")?, call.plan(alloc, Object::Disk)?);
    let mut tools = FailTools::new(
        TableTools::toy(alloc, Seq::new(alloc)),
        call.plan(alloc, Object::Tools)?,
    );
    let status = run(
        alloc,
        words.as_slice(),
        &mut input,
        &mut output,
        &mut tree,
        &mut disk,
        &mut tools,
    );
    Ok(Faulty {
        ran: Ran {
            status,
            output: output.inner().taken().to_vec(alloc)?,
            starts: Starts::of(tools.inner().log()),
        },
        image: disk.inner().image().to_vec(alloc)?,
    })
}

// How many steps the output begins with the whole replies of.
fn answered(alloc: Global, steps: &[Step], output: &[u8]) -> Result<usize, Memory> {
    let mut count = 0;
    for more in 0..=steps.len() {
        let replies = replies_of(alloc, front(steps, more))?;
        if output.starts_with(replies.as_slice()) {
            count = more;
        }
    }
    Ok(count)
}

// Whether the output has the whole replies of the steps, and no more; of an output that fails also a part of the next one.
fn has_stopped(alloc: Global, object: Object, output: &[u8], done: usize) -> Result<bool, Memory> {
    let whole = replies_of(alloc, front(STEPS, done))?;
    let next = replies_of(alloc, front(STEPS, done.saturating_add(1)))?;
    Ok(output == whole.as_slice() || object == Object::Sink && next.as_slice().starts_with(output))
}

// Whether a run in which a call fails ends with this status, and the next one goes on after the replies that were given. The job of a call that could not
// be kept is started again; no other one is.
fn goes_on(alloc: Global, call: Call, status: u8) -> Result<bool, Memory> {
    let commands = commands_of(alloc, STEPS)?;
    let first = run_with_fault(alloc, call, commands.as_slice())?;
    let done = answered(alloc, STEPS, first.ran.output.as_slice())?;
    let stopped = has_stopped(alloc, call.object, first.ran.output.as_slice(), done)?;
    let rest = behind(STEPS, done);
    let mut disk = disk_of(alloc, first.image.as_slice())?;
    let next = run_on(
        alloc,
        &[C_UNITS],
        &mut disk,
        commands_of(alloc, rest)?.as_slice(),
    )?;
    let replied = next.replied(replies_of(alloc, rest)?.as_slice());
    let starts = first.ran.starts.and(next.starts).count();
    let wanted = starts_of(STEPS).count();
    let again = call.object == Object::Disk && starts == wanted.saturating_add(1);
    Ok(first.ran.status == status && stopped && replied && (starts == wanted || again))
}

// Whether a run goes well where this call would fail, since there is no such call.
fn goes_well(alloc: Global, call: Call) -> Result<bool, Memory> {
    let commands = commands_of(alloc, STEPS)?;
    let whole = run_with_fault(alloc, call, commands.as_slice())?;
    let replies = replies_of(alloc, STEPS)?;
    Ok(whole.ran.went(replies.as_slice(), starts_of(STEPS)))
}

// The first call of an object where that is not so. The object has so many calls, and one more is none.
fn first_wrong(
    alloc: Global,
    object: Object,
    calls: usize,
    status: u8,
) -> Result<Option<u32>, Memory> {
    let mut number: u32 = 1;
    for _ in 0..calls {
        if !goes_on(alloc, Call { object, number }, status)? {
            return Ok(Some(number));
        }
        number = number.saturating_add(1);
    }
    let well = goes_well(alloc, Call { object, number })?;
    Ok((!well).then_some(number))
}

#[test]
fn a_read_that_fails_has_status_6(rt: HostRuntime) -> Result<(), Fail> {
    // The commands have 109 bytes, and the last read gives the end.
    assert_eq!(rt; first_wrong(rt.alloc(), Object::Source, 17, 6)?, None);
    Ok(())
}

#[test]
fn a_write_that_fails_has_status_5(rt: HostRuntime) -> Result<(), Fail> {
    // The replies have 11, 10, 35, 11, 58, 10, 35 and 7 bytes.
    assert_eq!(rt; first_wrong(rt.alloc(), Object::Sink, 28, 5)?, None);
    Ok(())
}

#[test]
fn a_graph_file_that_is_not_read_has_status_6(rt: HostRuntime) -> Result<(), Fail> {
    assert_eq!(rt; first_wrong(rt.alloc(), Object::Tree, 1, 6)?, None);
    Ok(())
}

// How many calls of the disk a run over no file makes.
fn disk_calls(alloc: Global, commands: &[u8]) -> Result<usize, Memory> {
    let mut disk = disk_of(alloc, b"")?;
    let _ = run_on(alloc, &[C_UNITS], &mut disk, commands)?;
    Ok(disk.calls())
}

#[test]
fn a_call_of_the_disk_that_fails_has_status_3(rt: HostRuntime) -> Result<(), Fail> {
    let calls = disk_calls(rt.alloc(), commands_of(rt.alloc(), STEPS)?.as_slice())?;
    assert_eq!(rt; first_wrong(rt.alloc(), Object::Disk, calls, 3)?, None);
    Ok(())
}

const FIRST_RUN: Text = b"put a.c 0\nask a.c\n";

// Whether a first run in which this call of the disk fails ends without a reply.
fn gives_no_reply(alloc: Global, number: u32) -> Result<bool, Memory> {
    let object = Object::Disk;
    let first = run_with_fault(alloc, Call { object, number }, FIRST_RUN)?;
    Ok(first.ran.status == 3 && first.ran.output.is_empty())
}

#[test]
fn a_put_whose_disk_fails_has_no_reply(rt: HostRuntime) -> Result<(), Fail> {
    let mut number: u32 = 1;
    for _ in 0..disk_calls(rt.alloc(), FIRST_RUN)? {
        assert!(rt; gives_no_reply(rt.alloc(), number)?, "{number}");
        number = number.saturating_add(1);
    }
    Ok(())
}

// The place of the step that tells how many calls are kept.
const KEPT: usize = 7;

// The number of a fault, the step of the ask that it refuses, how many jobs are started all the same, what is kept in the end, and how many
// jobs the next run starts.
type ToolRow = (u32, usize, usize, Text, usize);

const TOOL_ROWS: [ToolRow; 10] = [
    (1, 2, 5, b"kept 5\n", 0),
    (2, 2, 6, b"kept 5\n", 0),
    (3, 2, 5, b"kept 5\n", 0),
    (4, 2, 6, b"kept 5\n", 0),
    (5, 2, 5, b"kept 5\n", 0),
    (6, 2, 6, b"kept 5\n", 0),
    (7, 4, 3, b"kept 3\n", 2),
    (8, 4, 4, b"kept 3\n", 2),
    (9, 4, 4, b"kept 4\n", 1),
    (10, 4, 5, b"kept 4\n", 1),
];

// The replies where the ask of a step is refused, and so many calls are kept.
fn refusing(alloc: Global, refused: usize, kept: &[u8]) -> Result<Vec<u8>, Memory> {
    let mut replies = Vec::new(alloc);
    for (place, step) in STEPS.iter().enumerate() {
        replies.extend_from_slice(if place == refused {
            b"refused tool start\n".as_slice()
        } else if place == KEPT {
            kept
        } else {
            step.replies
        })?;
    }
    Ok(replies)
}

// Whether the run goes so, and the next one over its file has all replies.
fn refuses_one_ask(alloc: Global, row: ToolRow) -> Result<bool, Memory> {
    let (number, refused, starts, kept, again) = row;
    let object = Object::Tools;
    let commands = commands_of(alloc, STEPS)?;
    let first = run_with_fault(alloc, Call { object, number }, commands.as_slice())?;
    let replied = first
        .ran
        .replied(refusing(alloc, refused, kept)?.as_slice());
    let mut disk = disk_of(alloc, first.image.as_slice())?;
    let next = run_on(alloc, &[C_UNITS], &mut disk, commands.as_slice())?;
    let in_full = next.replied(replies_of(alloc, STEPS)?.as_slice());
    Ok(replied && first.ran.starts.count() == starts && in_full && next.starts.count() == again)
}

#[test]
fn a_start_or_end_that_fails_refuses_one_ask(rt: HostRuntime) -> Result<(), Fail> {
    for row in TOOL_ROWS {
        assert!(rt; refuses_one_ask(rt.alloc(), row)?, "{}", row.0);
    }
    let object = Object::Tools;
    assert!(rt; goes_well(rt.alloc(), Call { object, number: 11 })?);
    Ok(())
}
