// The calls that were given outcomes.
ghost use Rattle.std.specs.Prelude.{◌≡◌, ◌<◌, ◌++◌, ◌∷◌, [], None, option_map, OnOk, OnErr};
ghost use Rattle.indexmap.specs.IndexMap.{spare};
ghost use Rattle.meaning_texts.specs.Lists.{IsIn};
ghost use Rattle.derive_walk.specs.Calls.{IsWithout, outcome_in};

use crate::wanted::Wanted;
use indexmap::IndexMap;
use object_values::{Call, Memory, Outcome};
use std::alloc::Global;
use std::marker::Model;

/// Calls with their outcomes, in the order in which they came. A call is looked up by its hash.
pub struct Given {
    outcomes: IndexMap<Call, Outcome>,
}

impl Drop for Given {
    fn drop(self) {
        let Given { outcomes } = self;
        drop(outcomes);
    }
}

impl Model for Given {
    ghost use Rattle.derive_walk.specs.Calls.{GivenOutcomes};

    ghost Value = { GivenOutcomes };

    ghost view = { λ g. g.outcomes.entries };
}

impl Given {
    pub fn new(alloc: Global) -> Self
        ensures { result ≡ [] }
    {
        Given {
            outcomes: IndexMap::new(alloc),
        }
    }

    pub fn outcome(&self, call: &Call) -> Option<&Outcome>
        ensures { option_map (λ o. o.now) result ≡ outcome_in self.now call.now }
    {
        // A hash of the call goes over all its texts.
        if self.outcomes.is_empty() {
            return None;
        }
        self.outcomes.get(call)
    }

    /// Moves a wanted call here with its outcome, so that no copy of it is made. After want of memory
    /// all is as before.
    pub fn take(&mut self, wanted: &mut Wanted, call: &Call, outcome: Outcome) -> Result<(), Memory>
        requires wanted { IsIn call.now wanted.old }
        requires new { outcome_in self.old call.now ≡ None }
        ensures given { OnOk result (self.new ≡ self.old ++ (call.now, outcome) ∷ []) }
        ensures fewer { OnOk result (IsWithout call.now wanted.old wanted.new) }
        ensures same { OnErr result (self.new ≡ self.old) }
        ensures wanted { OnErr result (wanted.new ≡ wanted.old) }
    {
        self.outcomes.reserve(1)?;
        if let Some(taken) = wanted.take(call) {
            add_within(&mut self.outcomes, taken, outcome);
        }
        Ok(())
    }
}

// Adds an entry for which there is room.
fn add_within(outcomes: &mut IndexMap<Call, Outcome>, call: Call, outcome: Outcome)
    requires new { outcome_in outcomes.old.entries call ≡ None }
    requires room { 0 < spare outcomes.old }
    ensures { outcomes.new.entries ≡ outcomes.old.entries ++ (call, outcome) ∷ [] }
{
    let _ = outcomes.insert(call, outcome);
}
