// The child programs that run, in the order of their starts, each in its slot.
ghost use Rattle.std.specs.Prelude.{◌≡◌, ◌≢◌, ◌<◌, ◌↔◌, ℕ, map, remove, vec_len, Err, IsTrue, IfOk, IfSome, Any};
ghost use Rattle.std.specs.List.{HoldsAt};
ghost use Rattle.std.specs.Process.{child_status};
ghost use Rattle.odin_outside.specs.Spawned.{IsLeastFree, IsRunning};
ghost use Rattle.odin_real.specs.Ends.{EndsAs, TellsEnd};
ghost use Rattle.odin_real.specs.Finishes.{FolderIsCleared};
ghost use Rattle.odin_real.specs.Folders.{SameBut};
ghost use Rattle.odin_real.specs.Seen.{seen_of};
ghost use Rattle.odin_real.specs.Told.{AreAsked};

use crate::fault::SystemFault;
use crate::program::Started;
use crate::system::System;
use object_values::Raw;
use std::alloc::Global;

/// How many child programs run at once, at most.
const MOST: u32 = 64;

fn is_running<S: System>(started: &[Started<S>], slot: u32) -> bool
    ensures { IsTrue result ↔ Any (λ tool. tool.running.slot ≡ slot) started.now }
{
    for tool in started {
        if tool.running.slot == slot {
            return true;
        }
    }
    false
}

/// The least slot in which none runs, where there is one left.
pub fn least_free<S: System>(started: &[Started<S>]) -> Option<u32>
    ensures some { IfSome result (IsLeastFree (map (λ tool. tool.running) started.now)) }
    ensures none { result ≡ None → (slot : ℕ) → slot < MOST →
        IsRunning (map (λ tool. tool.running) started.now) slot }
{
    for slot in 0..MOST {
        if !is_running(started, slot) {
            return Some(slot);
        }
    }
    None
}

/// Waits for the end of the child program at a place, and gives what it left. It counts as running until it is taken out.
pub fn end_at<S: System>(
    started: &mut Vec<Started<S>>,
    place: usize,
    alloc: Global,
    system: &mut S,
) -> Result<Raw, SystemFault>
    requires { place < vec_len started.old }
    ensures length { vec_len started.new ≡ vec_len started.old }
    ensures asked { AreAsked (map seen_of started.old.items) (map seen_of started.new.items) }
    ensures others { remove started.new.items place ≡ remove started.old.items place }
    ensures end { IfOk result (λ raw. HoldsAt
        (λ tool. TellsEnd (child_status tool.child) raw.end) started.new.items place) }
    ensures cleared { result ≢ Err SystemFault.Memory → HoldsAt
        (λ tool. FolderIsCleared (seen_of tool)
        (S.held system.old) (S.held system.new)) started.old.items place }
    ensures held { HoldsAt (λ tool. SameBut (seen_of tool).folder
        (S.held system.old) (S.held system.new)) started.old.items place }
    ensures ends { HoldsAt (λ tool. EndsAs (seen_of tool)
        (S.log system.old) (S.log system.new) result) started.old.items place }
{
    started[place].end(alloc, system)
}

/// Takes the child program at a place out, and gives its slot.
pub fn take_at<S: System>(started: &mut Vec<Started<S>>, place: usize) -> u32
    requires { place < vec_len started.old }
    ensures slot { HoldsAt (λ tool. tool.running.slot ≡ result) started.old.items place }
    ensures others { started.new.items ≡ remove started.old.items place }
{
    started.remove(place).running.slot
}
