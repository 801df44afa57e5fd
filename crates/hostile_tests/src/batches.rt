// The batch of records that an ask writes after its calls: each of its disk calls fails, and is stopped within. No tool is run for the same again.
use super::runs::{Call, NONE, Object, disk_of, run_failing, run_over};
use super::sessions::Text;
use object_values::{Bytes, Memory};
use odin_fakes::MemDisk;
use std::alloc::Global;
use std::test::Fail;

// Commands with their replies, then a question with its reply, how many tools are started for it, how many calls are kept then, and how many batches of
// records are written.
struct Row {
    before: Text,
    replies: Text,
    question: Text,
    answer: Text,
    starts: usize,
    kept: Text,
    batches: usize,
}

const OBJECT: Text = b"object ok simple 4\nx=1\n\nmessages 0\n";

const WARNING: Text = b"object warning simple 4\nx=1\n\nmessages 1\nwarning a.c:o old\n";

const ROWS: &[Row] = &[
    Row {
        before: b"put m.sm 8\na.c\nb.c\nput a.c 4\nx=1\nput b.c 4\ny=2\n",
        replies: b"put m.sm 8\nput a.c 4\nput b.c 4\n",
        question: b"ask m.sm:exe\n",
        answer: b"object ok simple 8\nx=1\ny=2\n\nmessages 0\n",
        starts: 5,
        kept: b"kept 5\n",
        batches: 1,
    },
    // a part of what is asked for was noted before
    Row {
        before: b"put m.sm 4\na.c\nput a.c 4\nx=1\nask a.c:o\n",
        replies: b"put m.sm 4\nput a.c 4\nobject ok simple 4\nx=1\n\nmessages 0\n",
        question: b"ask m.sm:exe\n",
        answer: OBJECT,
        starts: 1,
        kept: b"kept 3\n",
        batches: 1,
    },
    // two records take the place of others
    Row {
        before: b"put m.sm 4\na.c\nput a.c 4\nx=1\nask m.sm:exe\nput a.c 11\nx=1\n//!old\n",
        replies: b"put m.sm 4\nput a.c 4\nobject ok simple 4\nx=1\n\nmessages 0\nput a.c 11\n",
        question: b"ask m.sm:exe\n",
        answer: WARNING,
        starts: 2,
        kept: b"kept 5\n",
        batches: 1,
    },
    // so it is where the calls of the text are kept
    Row {
        before: b"put m.sm 4\na.c\nput a.c 4\nx=1\nask m.sm:exe\nput a.c 11\nx=1\n//!old\nask m.sm:exe\nput a.c 4\nx=1\n",
        replies: b"put m.sm 4\nput a.c 4\nobject ok simple 4\nx=1\n\nmessages 0\nput a.c 11\nobject warning simple 4\nx=1\n\nmessages 1\nwarning a.c:o old\nput a.c 4\n",
        question: b"ask m.sm:exe\n",
        answer: OBJECT,
        starts: 0,
        kept: b"kept 5\n",
        batches: 1,
    },
    // nothing is to be noted of what is asked for again
    Row {
        before: b"put a.c 4\nx=1\nask a.c:o\nput b.c 4\ny=2\n",
        replies: b"put a.c 4\nobject ok simple 4\nx=1\n\nmessages 0\nput b.c 4\n",
        question: b"ask a.c:o\n",
        answer: OBJECT,
        starts: 0,
        kept: b"kept 2\n",
        batches: 0,
    },
];

// A record is added by two writes, each followed by a sync.
const CALLS: usize = 4;

// What a stop leaves of the calls since the last sync: four ways of the first of them, and then by chance.
const CHOICES: &[u64] = &[0, 1, 2, 3, 7, 15, 23, 31, 39, 47, 55, 63];

fn joined(alloc: Global, parts: &[&[u8]]) -> Result<Vec<u8>, Memory> {
    let mut text = Vec::new(alloc);
    for part in parts {
        text.extend_from_slice(part)?;
    }
    Ok(text)
}

// The disk after commands.
fn disk_after(alloc: Global, jobs: &str, commands: &[u8]) -> Result<MemDisk, Memory> {
    let mut disk = disk_of(alloc, b"")?;
    let _ = run_over(alloc, jobs, NONE, &mut disk, commands)?;
    Ok(disk)
}

// The disk after the question of a row, where just its calls and its batches were written for it.
fn asked(alloc: Global, row: &Row, jobs: &str) -> Result<Option<MemDisk>, Memory> {
    let before = disk_after(alloc, jobs, row.before)?;
    let commands = joined(alloc, &[row.before, row.question])?;
    let disk = disk_after(alloc, jobs, commands.as_slice())?;
    let records = row.starts.saturating_add(row.batches);
    let wanted = before.calls().saturating_add(CALLS.saturating_mul(records));
    Ok((disk.calls() == wanted).then_some(disk))
}

// Whether the question is answered over a file without a tool, and again after that without a write.
fn is_answered(alloc: Global, row: &Row, jobs: &str, image: &[u8]) -> Result<bool, Memory> {
    let mut disk = disk_of(alloc, image)?;
    let commands = joined(alloc, &[b"kept\n", row.question, b"kept\n"])?;
    let replies = joined(alloc, &[row.kept, row.answer, row.kept])?;
    let first = run_over(alloc, jobs, NONE, &mut disk, commands.as_slice())?;
    let mut again = disk_of(alloc, disk.image())?;
    let next = run_over(alloc, jobs, NONE, &mut again, commands.as_slice())?;
    let replied = first.replied(replies.as_slice()) && next.replied(replies.as_slice());
    Ok(replied && first.starts == 0 && next.starts == 0 && again.image() == disk.image())
}

// The numbers of the last calls of a disk, those of the batches.
fn last_calls(row: &Row, disk: &MemDisk) -> (usize, usize) {
    let count = CALLS.saturating_mul(row.batches);
    (disk.calls().saturating_sub(count), disk.calls())
}

// The first call of the batch that fails and leaves a session that doesn't stop well, or that can't be gone on with. 0 where other calls are made.
fn first_fault(alloc: Global, row: &Row, jobs: &str) -> Result<Option<usize>, Memory> {
    let Some(disk) = asked(alloc, row, jobs)? else {
        return Ok(Some(0));
    };
    let commands = joined(alloc, &[row.before, row.question])?;
    let (before, last) = last_calls(row, &disk);
    for number in before.saturating_add(1)..=last {
        let call = Call {
            object: Object::Disk,
            number: number.min(1024) as u32,
        };
        let (ran, image) = run_failing(alloc, jobs, call, commands.as_slice())?;
        let stopped = ran.status == 3 && ran.output.as_slice() == row.replies;
        if !stopped || !is_answered(alloc, row, jobs, image.as_slice())? {
            return Ok(Some(number));
        }
    }
    Ok(None)
}

// What a stop within a call of a disk leaves. `Err` also where there was no such call.
fn stopped(alloc: Global, disk: &MemDisk, moment: usize, choice: u64) -> Result<Bytes, Memory> {
    if moment > disk.calls() || moment > 1024 {
        return Err(Memory);
    }
    disk.crash(alloc, moment as u32, choice)
}

// The first moment at which a stop leaves a file that can't be gone on with. 0 where other calls are made.
fn first_stop(alloc: Global, row: &Row, jobs: &str) -> Result<Option<usize>, Memory> {
    let Some(disk) = asked(alloc, row, jobs)? else {
        return Ok(Some(0));
    };
    let (before, last) = last_calls(row, &disk);
    for moment in before.saturating_add(1)..=last {
        for choice in CHOICES {
            let image = stopped(alloc, &disk, moment, *choice)?;
            if !is_answered(alloc, row, jobs, image.as_slice())? {
                return Ok(Some(moment));
            }
        }
    }
    Ok(None)
}

#[test]
fn a_batch_of_records_that_fails_or_is_stopped_costs_no_tool(rt: HostRuntime) -> Result<(), Fail> {
    for (place, row) in ROWS.iter().enumerate() {
        for jobs in ["1", "3"] {
            assert_eq!(rt; first_fault(rt.alloc(), row, jobs)?, None, "{place}");
            assert_eq!(rt; first_stop(rt.alloc(), row, jobs)?, None, "{place}");
        }
    }
    Ok(())
}
