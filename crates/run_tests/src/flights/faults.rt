// Each start, each end and each call of the disk fails in turn while several tools are in flight.
use super::project::{ASK, CALLS, Events, OBJECT, PUT_REPLIES, PUTS, order_of, ran_with};
use crate::stored::disk_of;
use object_values::{Memory, Seq};
use odin_fakes::{FailDisk, FailTools, MemDisk, TableTools};
use odin_outside::{Spawner, ToolEvent};
use std::alloc::Global;
use std::test::Fail;
use test_support::only;

// The orders in which tools end.
const ORDERS: &[&[u32]] = &[&[], &[2, 1, 0, 2, 1], &[1, 1, 1, 1, 1, 1]];

// The commands of the project, up to its first ask, and how many calls are kept then.
fn asked_once(alloc: Global) -> Result<Vec<u8>, Memory> {
    let mut commands = PUTS.to_vec(alloc)?;
    commands.extend_from_slice(ASK)?;
    commands.extend_from_slice(b"kept\n")?;
    Ok(commands)
}

// The replies where so many calls are kept after this one.
fn replies_with(alloc: Global, answer: &[u8], kept: usize) -> Result<Vec<u8>, Memory> {
    let mut replies = PUT_REPLIES.to_vec(alloc)?;
    replies.extend_from_slice(answer)?;
    replies.extend_from_slice(b"kept ")?;
    if kept > 9 {
        replies.push(b'1')?;
    }
    replies.push(b'0' + (kept % 10) as u8)?;
    replies.push(b'\n')?;
    Ok(replies)
}

// Whether nothing was started after the events that were counted before this one, from 1.
fn starts_nothing_after(log: &[ToolEvent], number: usize) -> bool {
    log.iter()
        .skip(number.saturating_sub(1))
        .all(|event| !matches!(event, ToolEvent::Began(_, _)))
}

// Whether the first ask is refused where this start or end fails, from 1: nothing more is started, what runs ends and is kept, and asked again over
// the file that is left the object is there, by the calls that are not kept.
fn drains(alloc: Global, places: &[u32], number: u32) -> Result<bool, Memory> {
    let mut tools = FailTools::new(
        TableTools::toy(alloc, order_of(alloc, places)?),
        only(alloc, number)?,
    );
    let mut disk = disk_of(alloc, b"")?;
    let commands = asked_once(alloc)?;
    let first = ran_with(alloc, "3", &mut disk, commands.as_slice(), &mut tools)?;
    let log = tools.inner().log();
    let events = Events::of(log);
    let refused = replies_with(alloc, b"refused tool start\n", events.ended)?;
    let drained = starts_nothing_after(log, number as usize) && tools.running() == 0;
    let left = CALLS.saturating_sub(events.ended);
    Ok(
        first.replied(refused.as_slice())
            && drained
            && events.began == events.ended.saturating_add(events.lost)
            && builds_the_rest(alloc, &mut disk, left)?,
    )
}

// Whether the object is there by so many calls.
fn builds_the_rest(alloc: Global, disk: &mut MemDisk, left: usize) -> Result<bool, Memory> {
    let mut tools = TableTools::toy(alloc, Seq::new(alloc));
    let again = ran_with(alloc, "3", disk, ASK, &mut tools)?;
    Ok(again.replied(OBJECT) && Events::of(tools.log()).began == left)
}

#[test]
fn each_start_and_each_end_that_fails_drains_what_runs(rt: HostRuntime) -> Result<(), Fail> {
    for places in ORDERS {
        for number in 1..27u32 {
            assert!(rt; drains(rt.alloc(), places, number)?, "{number}");
        }
    }
    Ok(())
}

// The order in which tools end over a disk that fails.
const MIXED: &[u32] = &[2, 0, 1, 2, 0, 1];

// A run with three tools at once over a disk of which this call fails: its status, what its tools did, and the file.
fn ran_over(alloc: Global, number: u32) -> Result<(u8, Events, Vec<u8>), Memory> {
    let mut disk = FailDisk::new(disk_of(alloc, b"")?, only(alloc, number)?);
    let mut tools = TableTools::toy(alloc, order_of(alloc, MIXED)?);
    let commands = asked_once(alloc)?;
    let given = ran_with(alloc, "3", &mut disk, commands.as_slice(), &mut tools)?;
    let events = Events::of(tools.log());
    let image = disk.inner().image().to_vec(alloc)?;
    Ok((given.status, events, image))
}

// Whether the file has all outcomes that came, but for the last one at most: what is left is built by the other calls.
fn keeps_all_but_the_last(alloc: Global, number: u32) -> Result<bool, Memory> {
    let (status, events, image) = ran_over(alloc, number)?;
    let mut disk = disk_of(alloc, image.as_slice())?;
    let mut tools = TableTools::toy(alloc, Seq::new(alloc));
    let mut commands = PUTS.to_vec(alloc)?;
    commands.extend_from_slice(ASK)?;
    let again = ran_with(alloc, "3", &mut disk, commands.as_slice(), &mut tools)?;
    let mut replies = PUT_REPLIES.to_vec(alloc)?;
    replies.extend_from_slice(OBJECT)?;
    let began = Events::of(tools.log()).began;
    let left = CALLS.saturating_sub(events.ended);
    Ok(
        status == 3
            && again.replied(replies.as_slice())
            && (began == left || began == left.saturating_add(1)),
    )
}

// How many calls of the disk a run makes where none fails.
fn disk_calls(alloc: Global) -> Result<usize, Memory> {
    let mut disk = disk_of(alloc, b"")?;
    let mut tools = TableTools::toy(alloc, order_of(alloc, MIXED)?);
    let commands = asked_once(alloc)?;
    let ran = ran_with(alloc, "3", &mut disk, commands.as_slice(), &mut tools)?;
    if ran.status == 0 {
        Ok(disk.calls())
    } else {
        Ok(0)
    }
}

#[test]
fn a_call_of_the_disk_that_fails_loses_the_last_outcome_at_most(
    rt: HostRuntime,
) -> Result<(), Fail> {
    let calls = disk_calls(rt.alloc())?;
    assert!(rt; calls > CALLS);
    let mut number: u32 = 1;
    for _ in 0..calls {
        assert!(rt; keeps_all_but_the_last(rt.alloc(), number)?, "{number}");
        number = number.saturating_add(1);
    }
    Ok(())
}
