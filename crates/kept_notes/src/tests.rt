// Whether a record that a file has may be noted.
ghost use Rattle.std.specs.Prelude.{◌≡◌, ◌↔◌, IsTrue, length};
ghost use Rattle.std.specs.List.{list_all};
ghost use Rattle.kept_notes.specs.Loaded.{MayBeLoaded, is_abort, is_dep, is_number, is_valued, may_note};

use kept_contents::ContentTable;
use object_values::{HEIGHT_LIMIT, Status, StoredDep, StoredRecord};

/// Whether a record may be noted over these contents: all that it names are there, no more of its deps are reached than there are, its height is one of a
/// node with steps, and it has a value exactly where its status isn't `Abort`.
#[tactic(auto, using(crate::proofs::LoadedLemmas::note_decides))]
pub fn may_note(table: &ContentTable, stored: &StoredRecord) -> bool
    ensures { IsTrue result ↔ MayBeLoaded table.now.contents stored.now }
{
    test_record(table.len(), stored)
}

fn test_record(count: usize, stored: &StoredRecord) -> bool
    ensures { result ≡ may_note count stored.now }
{
    are_deps(count, stored.deps.as_slice())
        && is_number(count, stored.value)
        && stored.reached as usize <= stored.deps.len()
        && 1 <= stored.height
        && stored.height as usize <= HEIGHT_LIMIT
        && is_valued(stored.value, stored.status)
}

fn are_deps(count: usize, deps: &[StoredDep]) -> bool
    ensures { result ≡ list_all (is_dep count) deps.now }
{
    deps.iter().all(|dep| is_number(count, dep.content))
}

fn is_number(count: usize, number: Option<u32>) -> bool
    ensures { result ≡ is_number count number }
{
    match number {
        Some(number) => (number as usize) < count,
        None => true,
    }
}

fn is_valued(value: Option<u32>, status: Status) -> bool
    ensures { result ≡ is_valued value status }
{
    match value {
        Some(_) => !is_abort(status),
        None => is_abort(status),
    }
}

fn is_abort(status: Status) -> bool
    ensures { result ≡ is_abort status }
{
    match status {
        Status::Abort => true,
        _ => false,
    }
}
