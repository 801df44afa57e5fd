// What is kept, of calls and of nodes.
ghost use Rattle.std.specs.Prelude.{◌≡◌, ◌↔◌, ◌+◌, None, Some, IfOk, IfSome, IsTrue, option_map};
ghost use Rattle.derive_walk.specs.Places.{at_place};
ghost use Rattle.derive_walk.specs.Keeping.{Keeping};
ghost use Rattle.derive_walk.specs.Trials.{IsNamed};

use object_values::{Call, Memory, Node, NodeRecord, Outcome, Value};
use odin_outside::Steps;
use std::alloc::Global;
use std::sync::ledger::Ledger;

/// What is kept: outcomes of calls, and records of nodes, whose values are contents by their numbers. Each look at a kept call
/// costs a step, and so does each look at a node. What stands at a place is no look.
pub trait Known {
    ghost keeps: { Self → Keeping };

    fn outcome<L: Ledger>(
        &self,
        alloc: Global,
        call: &Call,
        steps: &mut Steps<L>,
    ) -> Result<Option<Outcome>, Memory>
        ensures is { IfOk result (λ outcome. outcome ≡ (keeps self.now).outcomes call.now) }
        ensures step { steps.new ≡ steps.old + 1 };

    /// The place of the record of a node, where it has one.
    fn find<L: Ledger>(&self, node: &Node, steps: &mut Steps<L>) -> Option<u64>
        ensures is { at_place (keeps self.now).placed result ≡ (keeps self.now).records node.now }
        ensures step { steps.new ≡ steps.old + 1 };

    /// The record at a place.
    fn at(&self, place: u64) -> Option<&NodeRecord>
        ensures is { option_map (λ r. r.now) result ≡ (keeps self.now).placed place }
        ensures named { IfSome result (λ r. IsNamed (keeps self.now).contents r.now) };

    /// The epoch at which they are looked up: a record that was checked at it holds as it stands.
    fn epoch(&self) -> u64
        ensures { result ≡ (keeps self.now).epoch };

    /// Whether the content of a number is this value.
    fn is(&self, number: u64, value: &Value) -> bool
        ensures { IsTrue result ↔ ((keeps self.now).contents number ≡ Some value.now) };

    /// The content of a number, where there is one.
    fn content(&self, alloc: Global, number: u64) -> Result<Option<Value>, Memory>
        ensures { IfOk result (λ value. value ≡ (keeps self.now).contents number) };
}

/// Nothing is kept.
#[derive(Drop)]
pub struct NothingKept;

impl Known for NothingKept {
    ghost use Rattle.derive_walk.specs.Keeping.{outcomes_alone};
    ghost use Rattle.derive_walk.specs.Outcomes.{nothing_known};

    ghost keeps = { λ known. outcomes_alone nothing_known };

    fn outcome<L: Ledger>(
        &self,
        _alloc: Global,
        _call: &Call,
        steps: &mut Steps<L>,
    ) -> Result<Option<Outcome>, Memory> {
        steps.tick();
        Ok(None)
    }

    fn find<L: Ledger>(&self, _node: &Node, steps: &mut Steps<L>) -> Option<u64> {
        steps.tick();
        None
    }

    fn at(&self, _place: u64) -> Option<&NodeRecord> {
        None
    }

    fn epoch(&self) -> u64 {
        0
    }

    fn is(&self, _number: u64, _value: &Value) -> bool {
        false
    }

    fn content(&self, _alloc: Global, _number: u64) -> Result<Option<Value>, Memory> {
        Ok(None)
    }
}
