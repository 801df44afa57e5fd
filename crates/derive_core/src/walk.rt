// The walk from a root over what is kept.
ghost use Rattle.std.specs.Prelude.{◌≡◌, ◌+◌, OnOk, OnErr, option_map};
ghost use Rattle.meaning_graph.specs.Graphs.{Graph as GraphValue};
ghost use Rattle.meaning_texts.specs.Lists.{IsIn};
ghost use Rattle.meaning_calls.specs.Outcomes.{OutcomeFits};
ghost use Rattle.meaning_tasks.specs.Nodes.{Fits};
ghost use Rattle.meaning_derive.specs.Derive.{Sources as SourceTexts};
ghost use Rattle.meaning_derive.specs.Given.{OutcomesFit};
ghost use Rattle.path_planner.specs.Ends.{plans_of};
ghost use Rattle.derive_walk.specs.Keeping.{Keeping};
ghost use Rattle.derive_walk.specs.Looks.{TakesLooks, looks_by, lost, spare_for};
ghost use Rattle.derive_walk.specs.Settings.{MayGoBy, world_by};
ghost use Rattle.derive_walk.specs.Walks.{IsFormed, IsRight, IsAdvanced, IsPlacedIn, ExtendsWalk, OutcomeIsGiven, new_walk};
ghost use Rattle.derive_walk.specs.Worlds.{World, KnowsIn};
ghost use Rattle.derive_core.specs.Kept.{keeping_of, kept_world};

use crate::kept::KeptTables;
use derive_walk::{Found, Walker};
use kept_tables::Looks;
use object_values::{Call, Fresh, Memory, Node, Outcome, RenewedNode, Seq, Sources};
use odin_outside::Steps;
use path_planner::{PlannedGraph, Plans};
use std::alloc::Global;
use std::marker::Model;
use std::sync::ledger::Ledger;
use type_graph::Graph;

/// The derivation of a root as far as outcomes of calls are kept or were given, by records of nodes
/// that are kept. Contracts see it as they see the walk.
pub struct Core {
    walker: Walker,
}

impl Drop for Core {
    fn drop(self) {
        let Core { walker } = self;
        drop(walker);
    }
}

impl Model for Core {
    ghost use Rattle.derive_walk.specs.Walks.{Walked};

    ghost Value = { Walked };

    ghost view = { λ c. c.walker };
}

impl Core {
    /// Nothing is known yet. It is formed, and right in every world that its root fits and whose records are true.
    pub fn new(alloc: Global, root: Node) -> Self
        ensures is { result ≡ new_walk root }
        ensures formed { (w : World) → Fits w.graph root → OutcomesFit w.outcomes →
            IsFormed w result }
        ensures right { (w : World) → Fits w.graph root → OutcomesFit w.outcomes → KnowsIn w →
            IsRight w result }
    {
        Core {
            walker: Walker::new(alloc, root),
        }
    }

    /// Settles all that needs no further tool: then there is a result, or what is wanted is what the
    /// derivation stops at. After want of memory it may be called again. Each look at a kept call is a step, and
    /// each at a node, which is looked at once. A record that was checked at this epoch gives its node as it stands.
    pub fn advance<L: Ledger>(
        &mut self,
        alloc: Global,
        graph: &Graph,
        plans: &Plans,
        sources: &Sources,
        looks: &Looks<'_>,
        epoch: u64,
        steps: &mut Steps<L>,
    ) -> Result<(), Memory>
        requires made { plans.now ≡ plans_of graph.now }
        requires ground { MayGoBy (keeping_of looks.now.kept.now epoch)
            graph.now sources.now.texts }
        requires formed { let at = kept_world looks.now.kept.now epoch
            graph.now sources.now.texts in
            IsFormed (at self.old.given) self.old }
        ensures on { ExtendsWalk self.old self.new }
        ensures formed { let at = kept_world looks.now.kept.now epoch
            graph.now sources.now.texts in
            IsFormed (at self.new.given) self.new }
        ensures right { let at = kept_world looks.now.kept.now epoch
            graph.now sources.now.texts in
            IsRight (at self.old.given) self.old → IsRight (at self.new.given) self.new }
        ensures advanced { let at = kept_world looks.now.kept.now epoch
            graph.now sources.now.texts in
            IsRight (at self.old.given) self.old →
            OnOk result (IsAdvanced (at self.new.given) self.new) }
        ensures counted { TakesLooks (looks_by self.old) (looks_by self.new)
            steps.old steps.new (lost result + spare_for self.new.looked self.new.result) }
    {
        let planned = PlannedGraph::new(graph, plans);
        self.advance_in(alloc, &planned, sources, looks, epoch, steps)
    }

    /// The same in a graph with its plans.
    pub fn advance_in<L: Ledger>(
        &mut self,
        alloc: Global,
        planned: &PlannedGraph<'_>,
        sources: &Sources,
        looks: &Looks<'_>,
        epoch: u64,
        steps: &mut Steps<L>,
    ) -> Result<(), Memory>
        requires ground { MayGoBy (keeping_of looks.now.kept.now epoch)
            planned.now sources.now.texts }
        requires formed { let at = kept_world looks.now.kept.now epoch
            planned.now sources.now.texts in
            IsFormed (at self.old.given) self.old }
        ensures on { ExtendsWalk self.old self.new }
        ensures formed { let at = kept_world looks.now.kept.now epoch
            planned.now sources.now.texts in
            IsFormed (at self.new.given) self.new }
        ensures right { let at = kept_world looks.now.kept.now epoch
            planned.now sources.now.texts in
            IsRight (at self.old.given) self.old → IsRight (at self.new.given) self.new }
        ensures advanced { let at = kept_world looks.now.kept.now epoch
            planned.now sources.now.texts in
            IsRight (at self.old.given) self.old →
            OnOk result (IsAdvanced (at self.new.given) self.new) }
        ensures counted { TakesLooks (looks_by self.old) (looks_by self.new)
            steps.old steps.new (lost result + spare_for self.new.looked self.new.result) }
    {
        let known = KeptTables { looks, epoch };
        self.walker.advance(alloc, planned, sources, &known, steps)
    }

    /// The outcome of a wanted call, which is wanted no more. After want of memory all is as before.
    pub fn give(&mut self, call: &Call, outcome: Outcome) -> Result<(), Memory>
        requires wanted { IsIn call.now self.old.wanted }
        requires fits { OutcomeFits call.now outcome }
        ensures ok { OnOk result (OutcomeIsGiven call.now outcome self.old self.new) }
        ensures err { OnErr result (self.new ≡ self.old) }
        ensures formed { (g : GraphValue) (s : SourceTexts) (keeping : Keeping) →
            IsFormed (world_by keeping g s self.old.given) self.old →
            IsFormed (world_by keeping g s self.new.given) self.new }
        ensures right { (g : GraphValue) (s : SourceTexts) (keeping : Keeping) →
            IsRight (world_by keeping g s self.old.given) self.old →
            IsRight (world_by keeping g s self.new.given) self.new }
    {
        self.walker.give(call, outcome)
    }

    /// The calls that are wanted, each once.
    pub fn wanted(&self) -> &[Call]
        ensures { result.now ≡ self.now.wanted }
    {
        self.walker.wanted()
    }

    /// What is found of the root; once it is there it stays.
    pub fn result(&self) -> Option<&Found>
        ensures { option_map (λ found. found.now) result ≡ self.now.result }
    {
        self.walker.result()
    }

    /// What is found, what is to be noted of the nodes that were settled, and what the records of others came to.
    pub fn into_told(self) -> (Option<Found>, Seq<Fresh>, Seq<RenewedNode>)
        ensures found { result.0 ≡ self.result }
        ensures fresh { result.1 ≡ self.fresh }
        ensures renewed { result.2 ≡ self.renewed }
        ensures placed { IsPlacedIn self.root self.done self.result }
    {
        let Core { walker } = self;
        walker.into_told()
    }
}
