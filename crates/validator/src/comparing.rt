// Where needs differ from deps.
ghost use Rattle.std.specs.Prelude.{◌≡◌, ◌<◌, ◌^◌, IfNone, length};
ghost use Rattle.validator.specs.Verdicts.{difference, is_same, same_seen};

use crate::verdict::Now;
use object_values::{Dep, Seen};

fn same_seen(then: Seen, now: Seen) -> bool
    ensures { result ≡ same_seen then now }
{
    match (then, now) {
        (Seen::Nothing, Seen::Nothing) => true,
        (Seen::Kept(a), Seen::Kept(b)) => a == b,
        _ => false,
    }
}

fn is_same(dep: &Dep, need: &Now<'_>) -> bool
    ensures { result ≡ is_same dep.now need.now }
{
    dep.node == *need.node && same_seen(dep.seen, need.seen)
}

/// The first place, from 0, at which the needs differ from the deps.
pub(crate) fn difference(deps: &[Dep], now: &[Now<'_>]) -> Option<u32>
    requires { length deps.now < 2 ^ 32 }
    ensures first { result ≡ difference deps.now now.now }
    ensures none { IfNone result (length now.now ≡ length deps.now) }
{
    let mut place = 0;
    for dep in deps {
        let Some(need) = now.get(place as usize) else {
            return Some(place);
        };
        if !is_same(dep, need) {
            return Some(place);
        }
        place += 1;
    }
    if now.len() > deps.len() {
        return Some(place);
    }
    None
}
