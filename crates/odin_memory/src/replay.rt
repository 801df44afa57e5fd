// Images that a stop in the middle of kept calls may leave.
ghost use Rattle.std.specs.Prelude.{◌≡◌, ◌≤◌, All, length, take, drop, IfOk, OnOk};
ghost use Rattle.odin_memory.specs.Calls.{AreWithin, TornBy};
ghost use Rattle.odin_memory.specs.Choices.{IsWhole};
ghost use Rattle.odin_memory.specs.Entries.{DoesNone, DoesWhole, EndsSynced, IsCrashOf, IsDoneBy, IsImageOf, IsPending, IsStopOf, IsUnfinished, LeavesOut, LeavesOutAt, LeavesOutLast, SeenAt, StopAt, call_from_entry, choice_past, count_of, calls_from_entries};

use crate::choice::Choice;
use crate::disk::Entry;
use crate::tear::{tear_cut, tear_write};
use object_values::Memory;
use std::alloc::Global;

// How many bytes a kept call has.
fn count(entry: Entry) -> usize
    ensures { result ≡ count_of entry }
{
    match entry {
        Entry::Write(_, count) => count,
        _ => 0,
    }
}

// The bytes of a kept call, and those after them.
fn split(entry: Entry, bytes: &[u8]) -> (&[u8], &[u8])
    ensures here { result.0.now ≡ take (count_of entry) bytes.now }
    ensures rest { result.1.now ≡ drop (count_of entry) bytes.now }
{
    bytes.split_at(count(entry).min(bytes.len()))
}

// What a call that is cut short may make of the image. These are the bytes of the call, and of the writes before it.
fn tear(
    alloc: Global,
    image: &mut Vec<u8>,
    entry: Entry,
    bytes: &[u8],
    earlier: &[u8],
    choice: &mut Choice,
) -> Result<(), Memory>
    ensures torn { OnOk result
        (TornBy (call_from_entry entry bytes.now) image.old.items image.new.items) }
    ensures whole { OnOk result (IsDoneBy choice.old entry bytes.now image.old image.new) }
    ensures none { DoesNone choice.old entry → OnOk result (image.new.items ≡ image.old.items) }
    ensures past { DoesWhole choice.old entry → choice.new ≡ choice_past entry choice.old }
{
    match entry {
        Entry::Write(start, _) => tear_write(alloc, image, start as usize, bytes, earlier, choice),
        Entry::Cut(size) => tear_cut(alloc, image, size as usize, earlier, choice),
        Entry::Sync | Entry::Look => Ok(()),
    }
}

// What a crash after these calls may leave. Those before a place are done whole.
fn torn(
    alloc: Global,
    first: &[u8],
    entries: &[Entry],
    written: &[u8],
    pending: usize,
    choice: Choice,
) -> Result<Vec<u8>, Memory>
    requires within { AreWithin first.now (calls_from_entries entries.now written.now) }
    requires unsynced { All IsPending (drop pending entries.now) }
    ensures left { IfOk result (IsCrashOf first.now entries.now written.now) }
    ensures whole { IsWhole choice → IfOk result (IsImageOf first.now entries.now written.now) }
    ensures none { IfOk result (LeavesOutLast pending choice first.now entries.now written.now) }
{
    let mut choice = choice;
    let mut whole = Choice::new(0);
    let mut image = first.to_vec(alloc)?;
    let mut bytes = written;
    for (place, entry) in entries.iter().enumerate() {
        let (here, rest) = split(*entry, bytes);
        let earlier = &written[..written.len().saturating_sub(bytes.len())];
        if place < pending {
            tear(alloc, &mut image, *entry, here, earlier, &mut whole)?;
        } else {
            tear(alloc, &mut image, *entry, here, earlier, &mut choice)?;
        }
        bytes = rest;
    }
    Ok(image)
}

// The place after the last sync.
fn pending_from(entries: &[Entry]) -> usize
    ensures unsynced { All IsPending (drop result entries.now) }
    ensures synced { EndsSynced (take result entries.now) }
{
    let mut place = entries.len();
    while place > 0 {
        if matches!(entries[place - 1], Entry::Sync) {
            break;
        }
        place -= 1;
    }
    place
}

// The calls but for a sync at their end.
fn unfinished(entries: &[Entry]) -> &[Entry]
    ensures { IsUnfinished entries.now result.now }
{
    match entries.split_last() {
        Some((Entry::Sync, before)) => before,
        _ => entries,
    }
}

// What a stop within the last call may leave.
fn within_last(
    alloc: Global,
    first: &[u8],
    entries: &[Entry],
    written: &[u8],
    choice: Choice,
) -> Result<Vec<u8>, Memory>
    requires { AreWithin first.now (calls_from_entries entries.now written.now) }
    ensures left { IfOk result (IsStopOf first.now entries.now written.now) }
    ensures whole { IsWhole choice → IfOk result (IsImageOf first.now entries.now written.now) }
    ensures none { IfOk result (LeavesOut choice first.now entries.now written.now) }
{
    let before = unfinished(entries);
    torn(alloc, first, before, written, pending_from(before), choice)
}

/// What a stop within a call may leave, by its number; where it is 0, no call began.
pub fn stopped(
    alloc: Global,
    first: &[u8],
    entries: &[Entry],
    written: &[u8],
    moment: usize,
    choice: Choice,
) -> Result<Vec<u8>, Memory>
    requires within { AreWithin first.now (calls_from_entries entries.now written.now) }
    requires moment { moment ≤ length entries.now }
    ensures left { IfOk result (StopAt moment first.now entries.now written.now) }
    ensures whole { IsWhole choice → IfOk result (SeenAt moment first.now entries.now written.now) }
    ensures none { IfOk result (LeavesOutAt moment choice first.now entries.now written.now) }
{
    within_last(alloc, first, &entries[..moment], written, choice)
}
