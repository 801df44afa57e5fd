// The asking of an engine.
ghost use Rattle.std.specs.Prelude.{◌≡◌, IfOk, IfErr};
ghost use Rattle.kept_derive.specs.Calls.{IsIdle};
ghost use Rattle.meaning_tasks.specs.Nodes.{Fits};
ghost use Rattle.kept_derive.specs.Faults.{KeptFaultIsCounted as IsKeptCause, StoreAfterDerive as IsKeptLeft};
ghost use Rattle.kept_derive.specs.Rests.{ComesToRest, LeavesTools as LeavesKept};
ghost use Rattle.kept_derive.specs.Runs.{at};
ghost use Rattle.odin_engine.specs.Asking.{answer_of, IsAnswered, IsAskFault, AskFaultIsCounted, StoreAfterAsk, AskLeavesTools};
ghost use Rattle.odin_engine.specs.Engaged.{GraphStays};
ghost use Rattle.odin_engine.specs.Looking.{AreAskLooks, IsDerivedWithLooks};

use crate::engine::Engine;
use crate::fault::AskFault;
use kept_derive::{Found, KeptFault, derive_kept};
use object_values::{Node, View};
use odin_outside::{Disk, Spawner, Steps};
use path_planner::PlannedGraph;
use std::alloc::Global;
use std::sync::ledger::Ledger;

impl Engine {
    /// The view of the object that a text asks for. What was kept is not run again. Each look at a record of a node and at a kept call is a step.
    /// As many tools run at once as may, and each call is kept as its tool ends; after `Disk`, `Full` and `Memory` what runs is left. Before a view
    /// is given out the records of the nodes that changed are kept.
    pub fn ask<D: Disk, S: Spawner, L: Ledger>(
        &mut self,
        alloc: Global,
        disk: &mut D,
        tools: &mut S,
        text: &[u8],
        steps: &mut Steps<L>,
    ) -> Result<View, AskFault>
        requires { IsIdle self.old.store (D.size_of disk.old) (S.told tools.old) }
        ensures ok { let old = at self.old.store disk.old (S.told tools.old) in
            IfOk result (IsAnswered D.told self.old.graph self.old.jobs text.now
            old (at self.new.store disk.new (S.told tools.new))) }
        ensures err { let old = at self.old.store disk.old (S.told tools.old) in
            IfErr result (IsAskFault D.told self.old.graph self.old.jobs text.now
            old (at self.new.store disk.new (S.told tools.new))) }
        ensures stays { GraphStays self.old self.new }
        ensures rest { ComesToRest AskLeavesTools self.old.jobs
            (S.told tools.old) (S.told tools.new) result }
        ensures left { StoreAfterAsk self.new.store (D.size_of disk.new) result }
        ensures cause { AskFaultIsCounted (D.faults disk.old) (D.faults disk.new) result }
        ensures counted { let old = at self.old.store disk.old (S.told tools.old) in
            AreAskLooks D.told self.old.graph self.old.jobs text.now
            old (at self.new.store disk.new (S.told tools.new)) steps.old steps.new result }
    {
        let node = self.plan(alloc, text)?;
        let derived = self.derive(alloc, disk, tools, &node, steps);
        answer_of(derived)
    }

    // What is found of a node.
    fn derive<D: Disk, S: Spawner, L: Ledger>(
        &mut self,
        alloc: Global,
        disk: &mut D,
        tools: &mut S,
        node: &Node,
        steps: &mut Steps<L>,
    ) -> Result<Found, KeptFault>
        requires fits { Fits self.old.graph node.now }
        requires idle { IsIdle self.old.store (D.size_of disk.old) (S.told tools.old) }
        ensures derived { let old = at self.old.store disk.old (S.told tools.old) in
            IsDerivedWithLooks D.told self.old.graph node.now self.old.jobs
            old (at self.new.store disk.new (S.told tools.new)) steps.old steps.new result }
        ensures stays { GraphStays self.old self.new }
        ensures left { IsKeptLeft self.new.store (D.size_of disk.new) result }
        ensures cause { IsKeptCause (D.faults disk.old) (D.faults disk.new) result }
        ensures rest { ComesToRest LeavesKept self.old.jobs
            (S.told tools.old) (S.told tools.new) result }
    {
        let planned = PlannedGraph::new(&self.graph, &self.plans);
        derive_kept(
            alloc,
            &planned,
            &mut self.store,
            disk,
            node,
            self.jobs,
            tools,
            steps,
        )
    }
}

// The answer, by what the derivation came to.
fn answer_of(derived: Result<Found, KeptFault>) -> Result<View, AskFault>
    ensures { result ≡ answer_of derived }
{
    match derived {
        Ok(Found::Answer(view)) => Ok(view),
        Ok(Found::Circular(chain)) => Err(AskFault::Circular(chain)),
        Ok(Found::Deep(chain)) => Err(AskFault::Deep(chain)),
        Err(KeptFault::Spawn) => Err(AskFault::Spawn),
        Err(KeptFault::Disk) => Err(AskFault::Disk),
        Err(KeptFault::Full(end, count)) => Err(AskFault::Full(end, count)),
        Err(KeptFault::Memory) => Err(AskFault::Memory),
    }
}
