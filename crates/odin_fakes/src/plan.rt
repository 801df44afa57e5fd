// Which calls of an object fail by plan.
ghost use Rattle.std.specs.Prelude.{◌≡◌, ◌↔◌, IsTrue, IsErr, OnOk, OnErr};
ghost use Rattle.odin_outside.specs.Causes.{HasCause, IsCounted, once_more};
ghost use Rattle.odin_fakes.specs.Plan.{FailsNext, new_plan, called, failed};

use object_values::Seq;
use odin_outside::Failed;
use std::marker::Model;

/// The numbers of the calls that fail, counted from 1, and counts of the calls and of the faults.
pub struct FailPlan {
    fails: Seq<u32>,
    calls: u64,
    faults: u64,
}

impl Model for FailPlan {
    ghost use Rattle.odin_fakes.specs.Plan.{FaultPlan};

    ghost Value = { FaultPlan };

    ghost view = { λ p. record { fails = p.fails; calls = p.calls; faults = p.faults } };
}

impl Drop for FailPlan {
    fn drop(self) {
        let FailPlan {
            fails,
            calls: _,
            faults: _,
        } = self;
        drop(fails);
    }
}

impl FailPlan {
    pub(crate) fn new(fails: Seq<u32>) -> Self
        ensures { result ≡ new_plan fails }
    {
        FailPlan {
            fails,
            calls: 0,
            faults: 0,
        }
    }

    /// Counts a call, and says whether it is to fail.
    pub(crate) fn fails_next(&mut self) -> bool
        ensures fails { IsTrue result ↔ FailsNext self.old }
        ensures counted { self.new ≡ called self.old }
    {
        self.calls = self.calls.saturating_add(1);
        let number = self.calls;
        self.fails
            .as_slice()
            .iter()
            .any(|fail| u64::from(*fail) == number)
    }

    /// Counts a fault.
    pub(crate) fn count_fault(&mut self)
        ensures counted { self.new ≡ record self.old { faults = once_more self.old.faults } }
        ensures rose { IsCounted self.old.faults self.new.faults }
    {
        self.faults = self.faults.saturating_add(1);
    }

    /// Counts a call, and fails where it is to fail.
    pub(crate) fn call(&mut self) -> Result<(), Failed>
        ensures fails { IsErr result ↔ FailsNext self.old }
        ensures ok { OnOk result (self.new ≡ called self.old) }
        ensures err { OnErr result (self.new ≡ failed self.old) }
        ensures cause { HasCause self.old.faults self.new.faults result }
    {
        if self.fails_next() {
            self.count_fault();
            return Err(Failed);
        }
        Ok(())
    }
}

/// An object of the outside whose calls fail by plan, and where the object fails. A call that fails by plan leaves the object as it was.
pub struct Failing<T> {
    pub(crate) inner: T,
    pub(crate) plan: FailPlan,
}

impl<T: Drop> Drop for Failing<T> {
    fn drop(self) {
        let Failing { inner, plan } = self;
        drop(inner);
        drop(plan);
    }
}

impl<T> Failing<T> {
    /// `fails` holds the numbers of the calls that fail, counted from 1.
    pub fn new(inner: T, fails: Seq<u32>) -> Self
        ensures { result ≡ record { inner = inner; plan = new_plan fails } }
    {
        Failing {
            inner,
            plan: FailPlan::new(fails),
        }
    }

    /// What it wraps.
    pub fn inner(&self) -> &T
        ensures { result.now ≡ self.now.inner }
    {
        &self.inner
    }
}
