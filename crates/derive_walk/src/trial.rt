// The record of a node, tried over the results so far.
ghost use Rattle.std.specs.Prelude.{◌≡◌, ℕ, map, option_map, All, IfNone, IfOk, IfSome, IsSome, Some};
ghost use Rattle.meaning_true.specs.Numbered.{dep_by, fact_by};
ghost use Rattle.derive_walk.specs.SeenNow.{AreNow, IsBy, IsSeenAgain, IsStood};
ghost use Rattle.derive_walk.specs.Trials.{AreLow, IsNamed, IsNamedSeen, IsTried, Lacks};

use crate::done::{Done, Table};
use crate::known::Known;
use object_values::{
    Copied, Dep, HEIGHT_LIMIT, Memory, NodeRecord, Renewed, Seen, Status, Value, View,
};
use std::alloc::Global;
use validator::laws::verdicts_are_exact;
use validator::{Now, Verdict, check_record};

/// What a node comes to by its record: its result, and the place of the first dep that is just one
/// lower.
#[derive(Drop)]
pub(crate) struct Current {
    pub(crate) done: Done,
    pub(crate) tight: Option<u32>,
}

/// What a node comes to by its record, where each dep has a result with the value that was seen, and
/// that may stand: so is each record that is true. Else there is none.
pub(crate) fn try_record<K: Known>(
    alloc: Global,
    known: &K,
    done: &Table,
    kept: &NodeRecord,
) -> Result<Option<Current>, Memory>
    requires named { IsNamed (K.keeps known.now).contents kept.now }
    requires low { AreLow done.now }
    ensures { let fact = fact_by (K.keeps known.now).contents kept.now in
        IfOk result (IsTried done.now fact) }
{
    // More deps than can be counted want more memory than there is.
    if u32::try_from(kept.deps.len()).is_err() {
        return Err(Memory);
    }
    let Some(now) = needs_now(alloc, known, done, kept.deps.as_slice())? else {
        return Ok(None);
    };
    verdicts_are_exact();
    match &check_record(alloc, kept, now.as_slice())? {
        Verdict::Stale(_) => Ok(None),
        Verdict::Current(renewed) => stand(alloc, known, kept, renewed),
    }
}

/// What is seen of the deps' nodes now, where each has a result.
fn needs_now<'a, K: Known>(
    alloc: Global,
    known: &K,
    done: &'a Table,
    deps: &'a [Dep],
) -> Result<Option<Vec<Now<'a>>>, Memory>
    requires { All (λ d. IsNamedSeen (K.keeps known.now).contents d.seen) deps.now }
    ensures now { let contents = (K.keeps known.now).contents in
        IfOk result (λ found. IfSome found (λ now. AreNow contents done.now deps.now now.items)) }
    ensures lacks { let facts = map (dep_by (K.keeps known.now).contents) deps.now in
        IfOk result (λ found. IfNone found (Lacks done.now facts)) }
{
    let mut now = Vec::new(alloc);
    for dep in deps {
        let Some(entry) = done.entry(&dep.node) else {
            return Ok(None);
        };
        now.push(Now {
            node: &dep.node,
            seen: seen_now(known, dep.seen, entry.view.value.as_ref()),
            status: entry.view.status,
            messages: entry.view.messages.as_slice(),
            height: entry.height,
        })?;
    }
    Ok(Some(now))
}

/// What is seen of a value where this was seen before: a value of another number is new to it.
fn seen_now<K: Known>(known: &K, before: Seen, value: Option<&Value>) -> Seen
    requires { IsNamedSeen (K.keeps known.now).contents before }
    ensures { let value = option_map (λ v. v.now) value.entry in
        IsSeenAgain (K.keeps known.now).contents before value result }
{
    match (before, value) {
        (_, None) => Seen::Nothing,
        (Seen::Kept(number), Some(value)) => {
            if known.is(number, value) {
                before
            } else {
                Seen::New
            }
        }
        (_, Some(_)) => Seen::New,
    }
}

/// The result that a current record gives, unless it is too high, or a value comes with `Abort`, or
/// none without.
fn stand<K: Known>(
    alloc: Global,
    known: &K,
    kept: &NodeRecord,
    renewed: &Renewed,
) -> Result<Option<Current>, Memory>
    requires { (number : ℕ) → kept.now.value ≡ Some number
        → IsSome ((K.keeps known.now).contents number) }
    ensures { let contents = (K.keeps known.now).contents in
        IfOk result (IsStood contents kept.now renewed.now) }
{
    if renewed.height > HEIGHT_LIMIT as u32 {
        return Ok(None);
    }
    if kept.value.is_none() != (renewed.status == Status::Abort) {
        return Ok(None);
    }
    Ok(Some(Current {
        done: done_by(alloc, known, kept.value, renewed)?,
        tight: renewed.tight,
    }))
}

/// The value of this number with what was settled again.
pub(crate) fn done_by<K: Known>(
    alloc: Global,
    known: &K,
    value: Option<u64>,
    renewed: &Renewed,
) -> Result<Done, Memory>
    ensures { let contents = (K.keeps known.now).contents in
        IfOk result (IsBy contents value renewed.now) }
{
    let value = match value {
        None => None,
        Some(number) => known.content(alloc, number)?,
    };
    Ok(Done {
        view: View {
            value,
            status: renewed.status,
            messages: renewed.messages.copy(alloc)?,
        },
        height: renewed.height,
    })
}
