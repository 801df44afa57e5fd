// Which facts of nodes may be noted.
ghost use Rattle.std.specs.Prelude.{◌≡◌, ◌↔◌, ◌≤◌, All, IsFalse, IsNone, IsTrue, length};
ghost use Rattle.std.specs.List.{flat_map};
ghost use Rattle.object_values.specs.declared.facts.FactDep.{FactDep as FactDepValue};
ghost use Rattle.object_values.specs.declared.messages.Status.TheVariants.{Abort};
ghost use Rattle.object_values.specs.declared.records.Role.TheVariants.{Reached};
ghost use Rattle.object_values.specs.declared.views.Part.{Part as PartValue};
ghost use Rattle.meaning_texts.specs.Limits.{body_limit};
ghost use Rattle.meaning_records.specs.Batches.{AreReachedLast, IsNotable, value_list};
ghost use Rattle.meaning_records.specs.Tables.{IsShort};

use object_values::{BODY_LIMIT, Fact, FactDep, Fresh, Part, Role, Status, Value};

/// Whether all of it may be noted.
pub fn are_notable(fresh: &[Fresh]) -> bool
    ensures { IsTrue result → All IsNotable fresh.now }
{
    fresh.iter().all(|node| is_notable(node))
}

// Whether it may be noted: its values are short, its reached sources stand last, its height is one of a node with steps, and it has a value exactly where
// its present status isn't abort.
fn is_notable(fresh: &Fresh) -> bool
    ensures { IsTrue result → IsNotable fresh.now }
{
    let Fact { deps, value, .. } = &fresh.fact;
    let height = fresh.present.height;
    is_short_value(value)
        && are_short_deps(deps.as_slice())
        && are_reached_last(deps.as_slice())
        && height >= 1
        && height <= 64
        && is_valued(value.is_none(), fresh.present.status)
}

// Whether a value is missing exactly where the status is abort.
pub(crate) fn is_valued(is_missing: bool, status: Status) -> bool
    ensures { IsTrue result → (IsTrue is_missing ↔ (status ≡ Abort)) }
{
    is_missing == (status == Status::Abort)
}

fn is_short(value: &Value) -> bool
    ensures { IsTrue result → IsShort value.now }
{
    match value {
        Value::Simple(text) => text.len() <= BODY_LIMIT,
        Value::List(_) => true,
        Value::Compound(parts) => are_short(parts.as_slice()),
    }
}

fn are_short(parts: &[Part]) -> bool
    ensures { IsTrue result ↔ All (λ (p : PartValue). length p.body ≤ body_limit) parts.now }
{
    parts.iter().all(|part| part.body.len() <= BODY_LIMIT)
}

fn is_short_value(value: &Option<Value>) -> bool
    ensures { IsTrue result → All IsShort (value_list value.now) }
{
    match value {
        Some(value) => is_short(value),
        None => true,
    }
}

fn are_short_deps(deps: &[FactDep]) -> bool
    ensures { IsTrue result
        → All IsShort (flat_map (λ (d : FactDepValue). value_list d.value) deps.now) }
{
    for dep in deps {
        if !is_short_value(&dep.value) {
            return false;
        }
    }
    true
}

fn are_reached_last(deps: &[FactDep]) -> bool
    ensures { IsTrue result → AreReachedLast deps.now }
{
    let mut reached = false;
    for dep in deps {
        let is = is_reached(dep.role);
        if !may_follow(reached, is) {
            return false;
        }
        reached = is;
    }
    true
}

fn is_reached(role: Role) -> bool
    ensures reached { IsTrue result → role ≡ Reached }
    ensures needed { IsFalse result → ¬ (role ≡ Reached) }
{
    match role {
        Role::Reached => true,
        Role::Needed => false,
    }
}

// After a reached source comes a reached one.
fn may_follow(met: bool, is: bool) -> bool
    ensures { IsTrue result → IsTrue met → IsTrue is }
{
    is || !met
}
