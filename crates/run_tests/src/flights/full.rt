// The log of a project, walked: immediately before each end as many tools run as may, by what has ended before it.
use super::project::{ASK, OBJECT, PUT_REPLIES, PUTS, ran_with};
use crate::stored::disk_of;
use object_values::{Job, Memory, Seq};
use odin_fakes::TableTools;
use odin_outside::ToolEvent;
use std::alloc::Global;
use std::test::Fail;

// The units, each with its header.
const UNITS: [(&[u8], &[u8]); 5] = [
    (b"a.c", b"h1.h"),
    (b"b.c", b"h2.h"),
    (b"c.c", b"h1.h"),
    (b"d.c", b"h2.h"),
    (b"e.c", b"h1.h"),
];

const HEADERS: [&[u8]; 2] = [b"h1.h", b"h2.h"];

// The name of the first part of a job's call, as its file tells it.
fn first_part(job: &Job) -> &[u8] {
    for file in job.files.as_slice() {
        if file.name.as_slice() == b"call".as_slice() {
            for line in file.body.as_slice().split(|byte| *byte == b'\n') {
                if let Some(name) = line.strip_prefix(b"part 0 i1 ") {
                    return name;
                }
            }
        }
    }
    b""
}

fn runs(job: &Job, program: &[u8]) -> bool {
    job.words
        .as_slice()
        .first()
        .is_some_and(|word| word.as_slice() == program)
}

// Whether a job of this program over this source is one of them.
fn has(jobs: &[&Job], program: &[u8], name: &[u8]) -> bool {
    jobs.iter()
        .any(|job| runs(job, program) && first_part(job) == name)
}

// How many calls wait by what has ended: units that were not scanned; headers of scanned units; units that are scanned with their headers; and the
// linking of all units.
fn waiting(ended: &[&Job]) -> usize {
    let mut count: usize = 0;
    for (unit, header) in UNITS {
        let scanned = has(ended, b"scan", unit);
        let ready = scanned && has(ended, b"scan", header);
        if !scanned || ready && !has(ended, b"cc", unit) {
            count = count.saturating_add(1);
        }
    }
    for header in HEADERS {
        let met = UNITS
            .iter()
            .any(|unit| unit.1 == header && has(ended, b"scan", unit.0));
        if met && !has(ended, b"scan", header) {
            count = count.saturating_add(1);
        }
    }
    let compiled = UNITS.iter().all(|unit| has(ended, b"cc", unit.0));
    let linked = ended.iter().any(|job| runs(job, b"ld"));
    if compiled && !linked {
        count = count.saturating_add(1);
    }
    count
}

// Whether before each end of the log as many run as may: the lesser of the limit and of what waits.
fn is_full(alloc: Global, log: &[ToolEvent], limit: usize) -> Result<bool, Memory> {
    let mut ended: Vec<&Job> = Vec::new(alloc);
    let mut running: Vec<(u32, &Job)> = Vec::new(alloc);
    for event in log {
        match event {
            ToolEvent::Began(slot, job) => running.push((*slot, job))?,
            ToolEvent::Lost(_) => return Ok(false),
            ToolEvent::Ended(slot) => {
                if running.len() != waiting(ended.as_slice()).min(limit) {
                    return Ok(false);
                }
                let Some(place) = running.iter().position(|tool| tool.0 == *slot) else {
                    return Ok(false);
                };
                let (_, job) = running.remove(place);
                ended.push(job)?;
            }
        }
    }
    Ok(running.is_empty())
}

// An order by chance.
fn order_by(alloc: Global, seed: u32) -> Result<Seq<u32>, Memory> {
    let mut order = Seq::new(alloc);
    let mut number = seed;
    for _ in 0..13 {
        number = number.wrapping_mul(1_664_525).wrapping_add(1_013_904_223);
        order.push(number >> 16)?;
    }
    Ok(order)
}

// Whether the project is built in full use of so many slots, where tools end by this chance.
fn builds(alloc: Global, jobs: &str, limit: usize, seed: u32) -> Result<bool, Memory> {
    let mut tools = TableTools::toy(alloc, order_by(alloc, seed)?);
    let mut disk = disk_of(alloc, b"")?;
    let mut commands = PUTS.to_vec(alloc)?;
    commands.extend_from_slice(ASK)?;
    let mut replies = PUT_REPLIES.to_vec(alloc)?;
    replies.extend_from_slice(OBJECT)?;
    let ran = ran_with(alloc, jobs, &mut disk, commands.as_slice(), &mut tools)?;
    Ok(ran.replied(replies.as_slice()) && is_full(alloc, tools.log(), limit)?)
}

#[test]
fn as_many_run_as_may_before_each_end(rt: HostRuntime) -> Result<(), Fail> {
    for (jobs, limit) in [("1", 1), ("2", 2), ("3", 3), ("8", 8), ("64", 64)] {
        for seed in 0..10u32 {
            assert!(rt; builds(rt.alloc(), jobs, limit, seed)?, "{jobs} {seed}");
        }
    }
    Ok(())
}
