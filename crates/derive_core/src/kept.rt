// What is kept, as the walk looks it up.
use derive_walk::Known;
use kept_tables::Looks;
use object_values::{Call, Memory, Node, NodeRecord, Outcome, Value};
use odin_outside::Steps;
use std::alloc::Global;
use std::sync::ledger::Ledger;

/// Tables at an epoch: outcomes of calls, and records of nodes over the contents.
#[derive(Drop)]
pub(crate) struct KeptTables<'a> {
    pub(crate) looks: &'a Looks<'a>,
    pub(crate) epoch: u64,
}

impl Known for KeptTables<'_> {
    ghost use Rattle.derive_core.specs.Kept.{keeping_of};

    ghost keeps = { λ known. keeping_of known.looks.now.kept.now known.epoch };

    fn outcome<L: Ledger>(
        &self,
        alloc: Global,
        call: &Call,
        steps: &mut Steps<L>,
    ) -> Result<Option<Outcome>, Memory> {
        self.looks.outcome(alloc, call, steps)
    }

    fn find<L: Ledger>(&self, node: &Node, steps: &mut Steps<L>) -> Option<u64> {
        self.looks.find(node, steps)
    }

    fn at(&self, place: u64) -> Option<&NodeRecord> {
        self.looks.record_at(place)
    }

    fn epoch(&self) -> u64 {
        self.epoch
    }

    fn is(&self, number: u64, value: &Value) -> bool {
        self.looks.is(number, value)
    }

    fn content(&self, alloc: Global, number: u64) -> Result<Option<Value>, Memory> {
        if number < self.looks.contents() {
            Ok(Some(self.looks.value(alloc, number)?))
        } else {
            Ok(None)
        }
    }
}
