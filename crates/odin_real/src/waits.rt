// The first child program that ends.
ghost use Rattle.std.specs.Prelude.{◌≡◌, ◌<◌, map, vec_len, None, IsTrue, IfSome};
ghost use Rattle.odin_real.specs.Seen.{seen_of};
ghost use Rattle.odin_real.specs.Told.{IsAsked, AreAsked, NoneEnded};

use crate::program::Started;
use crate::system::System;
use std::time::Duration;

/// How long is waited at first before the child programs are asked again, and how long at most, in nanoseconds. A pause grows by a
/// sixteenth: so an end is seen after a sixteenth of its time at the latest, and looking takes little of the processor.
const FIRST_PAUSE: u64 = 200_000;

const LONGEST_PAUSE: u64 = 10_000_000;

// Whether a child program has ended, or can't be asked: then the wait for it says why.
fn has_ended<S: System>(tool: &mut Started<S>) -> bool
    ensures asked { IsAsked (seen_of tool.old) (seen_of tool.new) }
    ensures running { ¬ IsTrue result → (seen_of tool.new).status ≡ None }
{
    match tool.child.try_wait() {
        Ok(None) => false,
        Ok(Some(_)) | Err(_) => true,
    }
}

// The place of the oldest that has ended, if one has.
fn ended_now<S: System>(started: &mut Vec<Started<S>>) -> Option<usize>
    ensures inside { IfSome result (λ place. place < vec_len started.new) }
    ensures length { vec_len started.new ≡ vec_len started.old }
    ensures asked { AreAsked (map seen_of started.old.items) (map seen_of started.new.items) }
    ensures oldest { IfSome result (λ place. NoneEnded place (map seen_of started.new.items)) }
{
    for place in 0..started.len() {
        if has_ended(&mut started[place]) {
            return Some(place);
        }
    }
    None
}

/// The place of a child program that has ended, the oldest of those: where none has this waits. The only one that runs isn't asked, since
/// the wait for its end needs no pause.
pub fn wait_any<S: System>(system: &S, started: &mut Vec<Started<S>>) -> usize
    requires { 0 < vec_len started.old }
    ensures inside { result < vec_len started.new }
    ensures asked { AreAsked (map seen_of started.old.items) (map seen_of started.new.items) }
    ensures oldest { NoneEnded result (map seen_of started.new.items) }
{
    if started.len() == 1 {
        return 0;
    }
    let mut pause = FIRST_PAUSE;
    // Bounded, since no clause can say that a child ever ends. After so many pauses the oldest child is waited for.
    for _ in 0..u64::MAX {
        if let Some(place) = ended_now(started) {
            return place;
        }
        system.pause(Duration::from_nanos(pause));
        pause = pause.saturating_add(pause / 16).min(LONGEST_PAUSE);
    }
    0
}
