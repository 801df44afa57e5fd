// The tools of a derivation: started, waited for, and drained.
ghost use Rattle.std.specs.Prelude.{◌+◌, ◌≤◌, length, OnOk, IfOk, IfErr, option_map};
ghost use Rattle.meaning_graph.specs.Grammar.{GraphText, IsSpellable};
ghost use Rattle.derive_walk.specs.Looks.{TakesLooks, looks_by, lost, spare_for};
ghost use Rattle.derive_walk.specs.Walks.{IsFormed, IsRight, IsAdvanced, ExtendsWalk};
ghost use Rattle.job_runner.specs.Flights.{none_in_flight};
ghost use Rattle.kept_derive.specs.Calls.{MayDerive, MayDrain};
ghost use Rattle.kept_derive.specs.Faults.{KeptFaultIsCounted, StoreAfterDerive};
ghost use Rattle.kept_derive.specs.Rests.{IsDerivable};
ghost use Rattle.kept_derive.specs.Runs.{at, store_world};
ghost use Rattle.kept_derive.specs.Ways.{IsUnbegun, IsNextStart, HasFlown, FliesOut, IsHalted, Drains, DrainStops};

use crate::fault::KeptFault;
use crate::landing::{Landed, land};
use derive_core::Core;
use job_runner::{JobFault, Jobs};
use object_values::{Call, Memory};
use odin_outside::{Disk, Spawner, Steps};
use odin_store::Store;
use odin_store::laws::changes_follow;
use path_planner::PlannedGraph;
use std::alloc::Global;
use std::sync::ledger::Ledger;

/// What a flight came to: something was found of the root, or a tool was not started or its end lost.
#[derive(Clone, Copy, PartialEq, Eq)]
pub(crate) enum Flown {
    Found,
    Cut,
}

/// Runs the tools that the derivation needs, until something is found, and lets what runs come to its end.
pub(crate) fn fly_out<D: Disk, S: Spawner, L: Ledger>(
    alloc: Global,
    planned: &PlannedGraph<'_>,
    core: &mut Core,
    store: &mut Store,
    disk: &mut D,
    limit: u32,
    tools: &mut S,
    steps: &mut Steps<L>,
) -> Result<Flown, KeptFault>
    requires derivable { IsDerivable planned.now core.old.root }
    requires unbegun { IsUnbegun core.old (none_in_flight limit) }
    requires may { MayDerive planned.now store.old (D.size_of disk.old)
        limit (S.told tools.old) }
    ensures out { let old = at store.old disk.old (S.told tools.old) in
        IfOk result (FliesOut D.told planned.now core.old.root limit old
        core.new (at store.new disk.new (S.told tools.new)) steps.old steps.new) }
    ensures halted { let old = at store.old disk.old (S.told tools.old) in
        IfErr result (IsHalted D.told planned.now core.old.root limit
        old (at store.new disk.new (S.told tools.new)) steps.old steps.new) }
    ensures left { StoreAfterDerive store.new (D.size_of disk.new) result }
    ensures cause { KeptFaultIsCounted (D.faults disk.old) (D.faults disk.new) result }
{
    store.kept().records_fit();
    let mut jobs = Jobs::new(alloc, limit);
    let flown = fly(alloc, planned, core, &mut jobs, store, disk, tools, steps)?;
    if jobs.running() > 0 {
        drain(alloc, core, &mut jobs, store, disk, tools)?;
    }
    store.kept().records_fit();
    Ok(flown)
}

// Runs the tools that the derivation needs, as many at once as may run, until something is found. One event a turn: a wanted call is
// started; or, where a slot is free and an outcome came since, the walk goes on; or an end is waited for.
fn fly<D: Disk, S: Spawner, L: Ledger>(
    alloc: Global,
    planned: &PlannedGraph<'_>,
    core: &mut Core,
    jobs: &mut Jobs,
    store: &mut Store,
    disk: &mut D,
    tools: &mut S,
    steps: &mut Steps<L>,
) -> Result<Flown, KeptFault>
    requires derivable { IsDerivable planned.now core.old.root }
    requires unbegun { IsUnbegun core.old jobs.old }
    requires may { MayDerive planned.now store.old (D.size_of disk.old)
        jobs.old.limit (S.told tools.old) }
    ensures flown { let old = at store.old disk.old (S.told tools.old) in
        IfOk result (HasFlown D.told planned.now core.old.root jobs.old.limit old
        core.new jobs.new (at store.new disk.new (S.told tools.new)) steps.old steps.new) }
    ensures halted { let old = at store.old disk.old (S.told tools.old) in
        IfErr result (IsHalted D.told planned.now core.old.root jobs.old.limit
        old (at store.new disk.new (S.told tools.new)) steps.old steps.new) }
    ensures left { StoreAfterDerive store.new (D.size_of disk.new) result }
    ensures cause { KeptFaultIsCounted (D.faults disk.old) (D.faults disk.new) result }
{
    store.kept().fit();
    store.kept().records_fit();
    changes_follow::<D>();
    let mut fresh = false;
    // Bounded, since tools may go on giving outcomes that want more calls: no proof of an end is owed, and no run comes to so many turns.
    for _ in 0..u64::MAX {
        if let Some(call) = next_call(core.wanted(), jobs) {
            match jobs.start(alloc, call, tools) {
                Ok(()) => {}
                Err(JobFault::Spawn) => return Ok(Flown::Cut),
                Err(JobFault::Memory) => return Err(KeptFault::Memory),
            }
        } else if fresh || jobs.is_full() {
            // Only where what is kept of nodes isn't true is there nothing to wait for.
            if jobs.running() == 0 {
                return Err(KeptFault::Memory);
            }
            match land(alloc, core, jobs, store, disk, tools)? {
                Landed::Kept => fresh = false,
                Landed::Lost => return Ok(Flown::Cut),
            }
        } else {
            store.kept().records_fit();
            advance(alloc, core, planned, store, steps)?;
            if core.result().is_some() {
                return Ok(Flown::Found);
            }
            fresh = true;
        }
    }
    Err(KeptFault::Memory)
}

// The first wanted call that doesn't run; none where as many run as may.
fn next_call<'a>(wanted: &'a [Call], jobs: &Jobs) -> Option<&'a Call>
    requires { length jobs.now.running ≤ jobs.now.limit }
    ensures { IsNextStart wanted.now jobs.now (option_map (λ call. call.now) result) }
{
    if jobs.is_full() {
        return None;
    }
    for call in wanted {
        if !jobs.has(call) {
            return Some(call);
        }
    }
    None
}

// Lets what runs come to its end. An end that is lost is passed over.
fn drain<D: Disk, S: Spawner>(
    alloc: Global,
    core: &mut Core,
    jobs: &mut Jobs,
    store: &mut Store,
    disk: &mut D,
    tools: &mut S,
) -> Result<(), KeptFault>
    requires { MayDrain core.old jobs.old store.old (D.size_of disk.old) (S.told tools.old) }
    ensures drains { let old = at store.old disk.old (S.told tools.old) in
        OnOk result (Drains D.told core.old jobs.old old
        core.new jobs.new (at store.new disk.new (S.told tools.new))) }
    ensures stops { let old = at store.old disk.old (S.told tools.old) in
        IfErr result (DrainStops D.told core.old jobs.old old
        (at store.new disk.new (S.told tools.new))) }
    ensures left { StoreAfterDerive store.new (D.size_of disk.new) result }
    ensures cause { KeptFaultIsCounted (D.faults disk.old) (D.faults disk.new) result }
{
    changes_follow::<D>();
    let count = jobs.running();
    for _ in 0..count {
        land(alloc, core, jobs, store, disk, tools)?;
    }
    Ok(())
}

// Settles all that needs no further tool, by what the store keeps.
fn advance<L: Ledger>(
    alloc: Global,
    core: &mut Core,
    planned: &PlannedGraph<'_>,
    store: &Store,
    steps: &mut Steps<L>,
) -> Result<(), Memory>
    requires spellable { IsSpellable planned.now }
    requires spelled { GraphText store.now.graph planned.now }
    requires formed { IsFormed (store_world planned.now store.now core.old.given) core.old }
    ensures on { ExtendsWalk core.old core.new }
    ensures formed { IsFormed (store_world planned.now store.now core.new.given) core.new }
    ensures right { IsRight (store_world planned.now store.now core.old.given) core.old →
        IsRight (store_world planned.now store.now core.new.given) core.new }
    ensures advanced { IsRight (store_world planned.now store.now core.old.given) core.old →
        OnOk result (IsAdvanced (store_world planned.now store.now core.new.given) core.new) }
    ensures counted { TakesLooks (looks_by core.old) (looks_by core.new)
        steps.old steps.new (lost result + spare_for core.new.looked core.new.result) }
{
    store.facts_fit();
    let kept = store.kept();
    kept.records_fit();
    let looks = kept.looks();
    core.advance_in(
        alloc,
        planned,
        store.sources(),
        &looks,
        store.epoch(),
        steps,
    )
}
