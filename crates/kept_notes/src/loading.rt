// A record that a file has, as it is in memory.
ghost use Rattle.std.specs.Prelude.{◌≡◌, IfOk};
ghost use Rattle.meaning_records.specs.Tables.{role_before};
ghost use Rattle.kept_notes.specs.Loaded.{loaded_dep, loaded_deps, loaded_record, seen_of};

use object_values::{
    Dep, Memory, NodeRecord, Renewed, Role, Seen, Seq, SharedSeq, StoredDep, StoredRecord,
};
use std::alloc::Global;

/// The record that a stored one is. It was never checked.
pub fn loaded_record(alloc: Global, stored: StoredRecord) -> Result<NodeRecord, Memory>
    ensures { IfOk result (λ noted. noted ≡ loaded_record stored) }
{
    let StoredRecord {
        node,
        deps,
        reached,
        value,
        own_status,
        own_messages,
        status,
        messages,
        height,
    } = stored;
    let deps = loaded_deps(alloc, deps, reached as usize)?;
    let present = Renewed {
        status,
        messages: SharedSeq::of(messages)?,
        height,
        tight: None,
    };
    Ok(NodeRecord {
        node,
        deps,
        value: wide(value),
        own_status,
        own_messages: SharedSeq::of(own_messages)?,
        present,
        checked: None,
    })
}

// The deps, of which the last so many are reached. There is room for just as many as come.
fn loaded_deps(alloc: Global, deps: Seq<StoredDep>, reached: usize) -> Result<Seq<Dep>, Memory>
    ensures { IfOk result (λ loaded. loaded ≡ loaded_deps reached deps) }
{
    let mut more = deps.len();
    let mut loaded = Vec::with_capacity(alloc, more)?;
    for dep in deps.into_vec() {
        more -= 1;
        loaded.push(loaded_dep(reached, dep, more))?;
    }
    Ok(Seq::from_vec(loaded))
}

// A dep after which so many more come.
fn loaded_dep(reached: usize, dep: StoredDep, more: usize) -> Dep
    ensures { result ≡ loaded_dep reached dep more }
{
    let StoredDep { node, content } = dep;
    Dep {
        node,
        role: role_before(more, reached),
        seen: seen_of(content),
    }
}

pub(crate) fn role_before(more: usize, reached: usize) -> Role
    ensures { result ≡ role_before more reached }
{
    if more < reached {
        Role::Reached
    } else {
        Role::Needed
    }
}

pub(crate) fn seen_of(content: Option<u32>) -> Seen
    ensures { result ≡ seen_of content }
{
    match content {
        Some(number) => Seen::Kept(number as u64),
        None => Seen::Nothing,
    }
}

pub(crate) fn wide(value: Option<u32>) -> Option<u64>
    ensures { result ≡ value }
{
    match value {
        Some(number) => Some(number as u64),
        None => None,
    }
}
