// The walk from a root, as its callers see it.
ghost use Rattle.std.specs.Prelude.{◌≡◌, ◌+◌, OnOk, OnErr, IfOk, IsSome, option_map};
ghost use Rattle.meaning_graph.specs.Graphs.{Graph as GraphValue};
ghost use Rattle.meaning_texts.specs.Lists.{IsIn};
ghost use Rattle.meaning_calls.specs.Outcomes.{OutcomeFits};
ghost use Rattle.meaning_tasks.specs.Nodes.{Fits};
ghost use Rattle.meaning_derive.specs.Derive.{Sources as SourceTexts, Outcomes};
ghost use Rattle.meaning_derive.specs.Given.{OutcomesFit};
ghost use Rattle.derive_walk.specs.Keeping.{Keeping};
ghost use Rattle.derive_walk.specs.Outcomes.{after};
ghost use Rattle.derive_walk.specs.Looks.{GoesByLooks, TakesLooks, looks_by, lost, spare_at, spare_for};
ghost use Rattle.derive_walk.specs.Paths.{HasEmptyPath, AfterRoot};
ghost use Rattle.derive_walk.specs.Settings.{IsSetting, MayGoBy, world_by, world_in};
ghost use Rattle.derive_walk.specs.States.{IsFormedIn, HoldsIn, GoesOnFrom, heights_in};
ghost use Rattle.derive_walk.specs.Walks.{IsFormed, IsRight, IsAdvanced, IsPlacedIn, ExtendsWalk, OutcomeIsGiven, new_walk};
ghost use Rattle.derive_walk.specs.Worlds.{World, IsWorld, KnowsIn};

use crate::done::Table;
use crate::found::Found;
use crate::given::Given;
use crate::heights::Heights;
use crate::known::Known;
use crate::looked::Looked;
use crate::looking::height_of;
use crate::setting::Setting;
use crate::settling::source_view;
use crate::visiting::visit;
use crate::walk::Walk;
use crate::wanted::Wanted;
use object_values::{Call, Copied, Fresh, Memory, Node, Outcome, RenewedNode, Seq, Sources};
use odin_outside::Steps;
use path_planner::PlannedGraph;
use std::alloc::Global;
use std::marker::Model;
use std::sync::ledger::Ledger;

/// The derivation of a root as far as outcomes of calls are known. Contracts see the root, the
/// nodes that have results, the outcomes that were given, the wanted calls, and the result.
pub struct Walker {
    walk: Walk,
    given: Given,
    result: Option<Found>,
}

impl Drop for Walker {
    fn drop(self) {
        let Walker {
            walk,
            given,
            result,
        } = self;
        drop(walk);
        drop(given);
        drop(result);
    }
}

impl Model for Walker {
    ghost use Rattle.derive_walk.specs.Walks.{Walked, AreApart, IsPlacedIn};

    ghost Value = { Walked };

    ghost view = { λ w. record {
      root = w.walk.root;
      done = w.walk.done;
      fresh = w.walk.fresh;
      renewed = w.walk.renewed;
      given = w.given;
      wanted = w.walk.wanted;
      looked = w.walk.looked;
      taken = w.walk.taken;
      result = w.result;
    } };

    ghost invariant = { λ w. AreApart w.given w.walk.wanted
        × IsPlacedIn w.walk.root w.walk.done w.result };
}

impl Walker {
    /// Nothing is known yet. It is formed, and right in every world that its root fits and whose records are true.
    pub fn new(alloc: Global, root: Node) -> Self
        ensures is { result ≡ new_walk root }
        ensures formed { (w : World) → Fits w.graph root → OutcomesFit w.outcomes →
            IsFormed w result }
        ensures right { (w : World) → Fits w.graph root → OutcomesFit w.outcomes → KnowsIn w →
            IsRight w result }
    {
        Walker {
            walk: Walk {
                root,
                done: Table::new(alloc),
                fresh: Seq::new(alloc),
                renewed: Seq::new(alloc),
                wanted: Wanted::new(alloc),
                looked: Looked::new(alloc),
                taken: Seq::new(alloc),
                waiting: Heights::new(alloc),
                path: Seq::new(alloc),
            },
            given: Given::new(alloc),
            result: None,
        }
    }

    /// Settles all that needs no further tool: then there is a result, or what is wanted is what the
    /// derivation stops at. After want of memory it may be called again. Each look is a step: a node is looked
    /// at once in a derivation, and so is a kept call.
    pub fn advance<K: Known, L: Ledger>(
        &mut self,
        alloc: Global,
        planned: &PlannedGraph<'_>,
        sources: &Sources,
        known: &K,
        steps: &mut Steps<L>,
    ) -> Result<(), Memory>
        requires ground { MayGoBy (K.keeps known.now) planned.now sources.now.texts }
        requires formed { let at = world_by (K.keeps known.now) planned.now sources.now.texts in
            IsFormed (at self.old.given) self.old }
        ensures on { ExtendsWalk self.old self.new }
        ensures formed { let at = world_by (K.keeps known.now) planned.now sources.now.texts in
            IsFormed (at self.new.given) self.new }
        ensures right { let at = world_by (K.keeps known.now) planned.now sources.now.texts in
            IsRight (at self.old.given) self.old → IsRight (at self.new.given) self.new }
        ensures advanced { let at = world_by (K.keeps known.now) planned.now sources.now.texts in
            IsRight (at self.old.given) self.old →
            OnOk result (IsAdvanced (at self.new.given) self.new) }
        ensures counted { TakesLooks (looks_by self.old) (looks_by self.new)
            steps.old steps.new (lost result + spare_for self.new.looked self.new.result) }
    {
        if self.result.is_some() {
            return Ok(());
        }
        planned.graph().checked();
        let setting = Setting {
            planned,
            sources,
            known,
            given: &self.given,
        };
        self.walk.path.clear();
        self.walk.waiting = Heights::new(alloc);
        self.result = walk_from_root(alloc, &setting, &mut self.walk, steps)?;
        Ok(())
    }

    /// The outcome of a wanted call, which is wanted no more: the call itself is moved. After want of
    /// memory all is as before.
    pub fn give(&mut self, call: &Call, outcome: Outcome) -> Result<(), Memory>
        requires wanted { IsIn call.now self.old.wanted }
        requires fits { OutcomeFits call.now outcome }
        ensures ok { OnOk result (OutcomeIsGiven call.now outcome self.old self.new) }
        ensures err { OnErr result (self.new ≡ self.old) }
        ensures formed { (g : GraphValue) (s : SourceTexts) (keeping : Keeping) →
            IsFormed (world_by keeping g s self.old.given) self.old →
            IsFormed (world_by keeping g s self.new.given) self.new }
        ensures right { (g : GraphValue) (s : SourceTexts) (keeping : Keeping) →
            IsRight (world_by keeping g s self.old.given) self.old →
            IsRight (world_by keeping g s self.new.given) self.new }
    {
        self.given.take(&mut self.walk.wanted, call, outcome)?;
        self.walk.wanted.once();
        Ok(())
    }

    /// The calls that are wanted, each once.
    pub fn wanted(&self) -> &[Call]
        ensures { result.now ≡ self.now.wanted }
    {
        self.walk.wanted.as_slice()
    }

    /// What is noted of the nodes with steps that were settled.
    pub fn fresh(&self) -> &[Fresh]
        ensures { result.now ≡ self.now.fresh }
    {
        self.walk.fresh.as_slice()
    }

    /// What the records came to that are current, of nodes that weren't settled.
    pub fn renewed(&self) -> &[RenewedNode]
        ensures { result.now ≡ self.now.renewed }
    {
        self.walk.renewed.as_slice()
    }

    /// What is found of the root; once it is there it stays.
    pub fn result(&self) -> Option<&Found>
        ensures { option_map (λ found. found.now) result ≡ self.now.result }
    {
        self.result.as_ref()
    }

    pub fn into_result(self) -> Option<Found>
        ensures { result ≡ self.result }
    {
        let Walker {
            walk,
            given,
            result,
        } = self;
        drop(walk);
        drop(given);
        result
    }

    /// What is found, what is noted of the nodes that were settled, and what the records of others came to.
    pub fn into_told(self) -> (Option<Found>, Seq<Fresh>, Seq<RenewedNode>)
        ensures found { result.0 ≡ self.result }
        ensures fresh { result.1 ≡ self.fresh }
        ensures renewed { result.2 ≡ self.renewed }
        ensures placed { IsPlacedIn self.root self.done self.result }
    {
        let Walker {
            walk,
            given,
            result,
        } = self;
        drop(given);
        let (fresh, renewed) = walk.into_told();
        (result, fresh, renewed)
    }
}

// What is found of the root, where something is: else it waits. A source is settled at once, without
// the tables.
fn walk_from_root<K: Known, L: Ledger>(
    alloc: Global,
    setting: &Setting<'_, K>,
    walk: &mut Walk,
    steps: &mut Steps<L>,
) -> Result<Option<Found>, Memory>
    requires set { IsSetting K.keeps setting.now }
    requires formed { IsFormedIn (world_in K.keeps setting.now) walk.old }
    requires start { HasEmptyPath walk.old }
    ensures on { GoesOnFrom walk.old walk.new }
    ensures formed { IsFormedIn (world_in K.keeps setting.now) walk.new }
    ensures holds { let w = world_in K.keeps setting.now in
        HoldsIn w walk.old → HoldsIn w walk.new }
    ensures after { let w = world_in K.keeps setting.now in
        IfOk result (AfterRoot w (HoldsIn w walk.old) walk.new) }
    ensures counted { let w = world_in K.keeps setting.now in
        GoesByLooks w setting.now.given.now (HoldsIn w walk.old) walk.old walk.new
        steps.old steps.new (spare_at walk.new.looked result) }
{
    if walk.root.steps.is_empty() {
        let view = source_view(alloc, setting.planned.graph(), setting.sources, &walk.root)?;
        return Ok(Some(Found::Answer(view)));
    }
    if height_of(&walk.done, &walk.waiting, &walk.root).is_some() {
        return visited_root(alloc, walk);
    }
    let root = walk.root.copy(alloc)?;
    if let Some(found) = visit(alloc, setting, walk, root, steps)? {
        return Ok(Some(found));
    }
    visited_root(alloc, walk)
}

// What is found of a root that was visited.
fn visited_root(alloc: Global, walk: &Walk) -> Result<Option<Found>, Memory>
    requires { IsSome (heights_in walk.now walk.now.root) }
    ensures { (w : World) → IsWorld w → IsFormedIn w walk.now →
        IfOk result (AfterRoot w (HoldsIn w walk.now) walk.now) }
{
    match walk.done.entry(&walk.root) {
        None => Ok(None),
        Some(done) => Ok(Some(Found::Answer(done.view.copy(alloc)?))),
    }
}
