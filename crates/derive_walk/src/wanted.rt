// The calls that are wanted.
ghost use Rattle.std.specs.Prelude.{◌≡◌, ◌↔◌, [], Some, IsTrue, OnOk, OnErr};
ghost use Rattle.meaning_texts.specs.Lists.{IsIn};
ghost use Rattle.derive_walk.specs.Calls.{AreOnce, IsWithout, put_in};

use indexmap::IndexSet;
use object_values::{Call, Memory};
use std::alloc::Global;
use std::marker::Model;

/// Calls, each once. A call is looked up by its hash.
pub struct Wanted {
    calls: IndexSet<Call>,
}

impl Drop for Wanted {
    fn drop(self) {
        let Wanted { calls } = self;
        drop(calls);
    }
}

impl Model for Wanted {
    ghost use Rattle.std.specs.Prelude.{List};
    ghost use Rattle.object_values.specs.declared.calls.Call.{Call};
    ghost use Rattle.derive_walk.specs.Calls.{AreOnce};

    ghost Value = { List Call };

    ghost view = { λ w. w.calls.keys };

    ghost invariant = { λ w. AreOnce w.calls.keys };
}

impl Wanted {
    pub fn new(alloc: Global) -> Self
        ensures { result ≡ [] }
    {
        Wanted {
            calls: IndexSet::new(alloc),
        }
    }

    pub fn as_slice(&self) -> &[Call]
        ensures { result.now ≡ self.now }
    {
        self.calls.as_slice()
    }

    pub fn contains(&self, call: &Call) -> bool
        ensures { IsTrue result ↔ IsIn call.now self.now }
    {
        // A hash of the call goes over all its texts.
        if self.calls.is_empty() {
            return false;
        }
        self.calls.contains(call)
    }

    /// Adds the call after the others, where it isn't there.
    pub fn add(&mut self, call: Call) -> Result<(), Memory>
        ensures ok { OnOk result (self.new ≡ put_in call self.old) }
        ensures err { OnErr result (self.new ≡ self.old) }
    {
        self.calls.insert(call)?;
        Ok(())
    }

    /// Takes the call out, where it is there; the last one takes its place.
    pub(crate) fn take(&mut self, call: &Call) -> Option<Call>
        ensures taken { IsIn call.now self.old → result ≡ Some call.now }
        ensures fewer { IsWithout call.now self.old self.new }
    {
        self.calls.swap_take(call)
    }

    /// Each call stands there once.
    pub fn once(&self)
        ensures { AreOnce self.now }
    {
        let _ = &self.calls;
    }
}
