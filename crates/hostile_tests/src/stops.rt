// A session with three tools at once is stopped within each call of its disk, and gone on with.
use super::runs::{NONE, disk_of, run_over};
use super::sessions::{STARTS, Step, THERE_AND_BACK, TWO_UNITS, commands_of, front, goes_on};
use object_values::{Bytes, Memory};
use odin_fakes::MemDisk;
use std::alloc::Global;
use std::test::Fail;

const SESSIONS: &[&[Step]] = &[THERE_AND_BACK, TWO_UNITS];

// What a stop leaves of the calls since the last sync: four ways of the first of them, and then by chance.
const CHOICES: &[u64] = &[0, 1, 2, 3, 7, 15, 23, 31, 39, 47, 55, 63];

const JOBS: &str = "3";

// The disk after the first of the steps.
fn disk_after(alloc: Global, steps: &[Step], count: usize) -> Result<MemDisk, Memory> {
    let mut disk = disk_of(alloc, b"")?;
    let commands = commands_of(alloc, front(steps, count))?;
    let _ = run_over(alloc, JOBS, NONE, &mut disk, commands.as_slice())?;
    Ok(disk)
}

// What a stop within a call of a disk leaves. `Err` also where there was no such call.
fn stopped(alloc: Global, disk: &MemDisk, moment: usize, choice: u64) -> Result<Bytes, Memory> {
    if moment > disk.calls() || moment > 1024 {
        return Err(Memory);
    }
    disk.crash(alloc, moment as u32, choice)
}

// Whether a session goes on after each stop within a step; the first step has the opening of the file before it.
fn stops_well(alloc: Global, steps: &[Step], done: usize) -> Result<bool, Memory> {
    let first = match done {
        0 => 0,
        _ => disk_after(alloc, steps, done)?.calls().saturating_add(1),
    };
    let disk = disk_after(alloc, steps, done.saturating_add(1))?;
    for moment in first..=disk.calls() {
        for choice in CHOICES {
            let image = stopped(alloc, &disk, moment, *choice)?;
            match goes_on(alloc, steps, done, JOBS, image.as_slice())? {
                Some(starts) if starts <= STARTS => {}
                _ => return Ok(false),
            }
        }
    }
    Ok(true)
}

#[test]
fn a_stop_leaves_a_session_to_go_on_with(rt: HostRuntime) -> Result<(), Fail> {
    for steps in SESSIONS {
        for done in 0..steps.len() {
            assert!(rt; stops_well(rt.alloc(), steps, done)?, "{done}");
        }
    }
    Ok(())
}
