// Disks that stop or fail within each call of a session.
use crate::images::{disk_of, held_on, stands};
use crate::sessions::{STEPS, image_after, played};
use object_values::{Bytes, Memory, Seq};
use odin_fakes::{CrashDisk, FailDisk};
use odin_store::StoreFault;
use std::alloc::Global;
use std::test::Fail;

// What the image after so many changes stands for.
fn held_after(alloc: Global, count: usize) -> Result<Bytes, StoreFault> {
    let image = image_after(alloc, count)?;
    stands(alloc, image.as_slice())
}

// What an image stands for, where the file that its opening leaves stands for the same.
fn stands_again(alloc: Global, image: &[u8]) -> Result<Option<Bytes>, StoreFault> {
    let mut disk = disk_of(alloc, image)?;
    let held = held_on(alloc, &mut disk)?;
    let again = stands(alloc, disk.image())?;
    Ok((held == again).then_some(held))
}

// Whether an image stands for what is held after so many changes, or after one less.
fn is_before_or_after(alloc: Global, image: &[u8], count: usize) -> Result<bool, StoreFault> {
    let Some(held) = stands_again(alloc, image)? else {
        return Ok(false);
    };
    let before = held_after(alloc, count.saturating_sub(1))?;
    let after = held_after(alloc, count)?;
    Ok(held == before || held == after)
}

// The choice of a turn: each way to tear a write, and then by chance.
fn choice_of(turn: u64) -> u64 {
    if turn < 7 {
        turn
    } else {
        7 + 8 * (turn % 1000)
    }
}

/// What a stop leaves, where there was that call.
pub(super) fn crashed(
    alloc: Global,
    disk: &CrashDisk,
    moment: usize,
    turn: u64,
) -> Result<Bytes, Memory> {
    if moment > disk.calls() || moment > 1_000 {
        return Err(Memory);
    }
    disk.crash(alloc, moment as u32, choice_of(turn))
}

// Whether each stop from one call on leaves what is held after so many changes, or after one less.
fn stops_well(
    alloc: Global,
    disk: &CrashDisk,
    first: usize,
    count: usize,
) -> Result<bool, StoreFault> {
    for moment in first..=disk.calls() {
        for turn in 0..16 {
            let image = crashed(alloc, disk, moment, turn)?;
            if !is_before_or_after(alloc, image.as_slice(), count)? {
                return Ok(false);
            }
        }
    }
    Ok(true)
}

// The number of the calls of the disk for the opening and so many changes.
fn calls_for(alloc: Global, count: usize) -> Result<usize, Memory> {
    let mut disk = disk_of(alloc, b"")?;
    let _ = played(alloc, &mut disk, count)?;
    Ok(disk.calls())
}

// Whether each stop within the last of so many changes leaves what was held before it, or after it. Of none it is the opening.
fn stops_within(alloc: Global, count: usize) -> Result<bool, StoreFault> {
    let first = match count {
        0 => 0,
        _ => calls_for(alloc, count - 1)?.saturating_add(1),
    };
    let mut disk = disk_of(alloc, b"")?;
    let made = played(alloc, &mut disk, count)?;
    Ok(made == Some(count) && stops_well(alloc, &disk, first, count)?)
}

#[test]
fn a_stop_leaves_each_change_whole_or_not_at_all(rt: HostRuntime) {
    for count in 0..=STEPS {
        assert!(rt; stops_within(rt.alloc(), count) == Ok(true), "{count}");
    }
}

// A disk whose call of this number fails.
fn failing(alloc: Global, number: u32) -> Result<FailDisk, Memory> {
    let mut fails = Seq::new(alloc);
    fails.push(number)?;
    Ok(FailDisk::new(disk_of(alloc, b"")?, fails))
}

// Whether a session whose call of this number fails ends there, and leaves what was held before the change or after it.
fn fails_well(alloc: Global, number: u32) -> Result<bool, StoreFault> {
    let mut disk = failing(alloc, number)?;
    let made = played(alloc, &mut disk, STEPS)?;
    let image = disk.inner().image();
    match made {
        None => is_before_or_after(alloc, image, 0),
        Some(made) => {
            Ok(made < STEPS && is_before_or_after(alloc, image, made.saturating_add(1))?)
        }
    }
}

#[test]
fn a_fault_of_the_disk_leaves_each_change_whole_or_not_at_all(rt: HostRuntime) -> Result<(), Fail> {
    let calls = calls_for(rt.alloc(), STEPS)?;
    assert!(rt; calls == 51);
    for number in 1..=51 {
        assert!(rt; fails_well(rt.alloc(), number) == Ok(true), "{number}");
    }
    Ok(())
}
