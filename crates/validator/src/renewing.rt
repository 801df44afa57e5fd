// What a record comes to.
ghost use Rattle.std.specs.Prelude.{◌≡◌, ◌+◌, ◌<◌, ◌^◌, ◌≤◌, All, IfOk, length};
ghost use Rattle.meaning_texts.specs.Limits.{height_limit};
ghost use Rattle.meaning_tasks.specs.Values.{inherit};
ghost use Rattle.validator.specs.Verdicts.{adding, first_at, highest, messages_added, renewed_by, worst_with};

use crate::verdict::Now;
use object_values::{Dep, Memory, Message, NodeRecord, Renewed, Role, SharedSeq, Status};
use odin_nodes::{Inherited, worst};
use std::alloc::Global;

fn highest(now: &[Now<'_>]) -> u32
    requires { All (λ n. n.height ≤ height_limit) now.now }
    ensures is { result ≡ highest now.now }
    ensures low { result ≤ height_limit }
{
    let mut top = 0;
    for need in now {
        top = top.max(need.height);
    }
    top
}

// Those of the needs that add their status and messages.
fn adding<'a>(alloc: Global, deps: &[Dep], now: &[Now<'a>]) -> Result<Vec<Now<'a>>, Memory>
    ensures { IfOk result (λ needs. needs.items ≡ adding deps.now now.now) }
{
    let mut needs = Vec::new(alloc);
    let mut place = 0;
    for dep in deps {
        let Some(need) = now.get(place) else {
            return Ok(needs);
        };
        if dep.role == Role::Needed {
            needs.push(*need)?;
        }
        place += 1;
    }
    Ok(needs)
}

fn worst_with(own: Status, needs: &[Now<'_>]) -> Status
    ensures { result ≡ worst_with own needs.now }
{
    let mut status = own;
    for need in needs {
        status = worst(need.status, status);
    }
    status
}

fn messages_with(
    alloc: Global,
    needs: &[Now<'_>],
    own: &[Message],
) -> Result<SharedSeq<Message>, Memory>
    ensures { IfOk result (λ messages. messages ≡ inherit (messages_added needs.now) own.now) }
{
    let mut messages = Inherited::new(alloc);
    for need in needs {
        messages.add(alloc, need.messages)?;
    }
    messages.add(alloc, own)?;
    messages.into_messages(alloc)
}

// The first place, from 0, at which a need is so high.
fn first_at(now: &[Now<'_>], height: u32) -> Option<u32>
    requires { length now.now < 2 ^ 32 }
    ensures { result ≡ first_at height now.now }
{
    let mut place = 0;
    for need in now {
        if need.height == height {
            return Some(place);
        }
        place += 1;
    }
    None
}

/// The status and the messages by those of the needs that add them, one more than the greatest height, and where that one stands.
pub(crate) fn renew(alloc: Global, kept: &NodeRecord, now: &[Now<'_>]) -> Result<Renewed, Memory>
    requires few { length now.now < 2 ^ 32 }
    requires low { All (λ n. n.height ≤ height_limit) now.now }
    ensures { IfOk result (λ renewed. renewed ≡ renewed_by kept.now now.now) }
{
    let needs = adding(alloc, kept.deps.as_slice(), now)?;
    let messages = messages_with(alloc, needs.as_slice(), kept.own_messages.as_slice())?;
    let status = worst_with(kept.own_status, needs.as_slice());
    let top = highest(now);
    Ok(Renewed {
        status,
        messages,
        height: top + 1,
        tight: first_at(now, top),
    })
}
