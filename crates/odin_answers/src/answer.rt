// The replies to texts.
ghost use Rattle.std.specs.Prelude.{◌≡◌, ◌<◌, IfOk, IfErr};
ghost use Rattle.kept_derive.specs.Calls.{IsIdle};
ghost use Rattle.kept_derive.specs.Rests.{ComesToRest, LeavesAll};
ghost use Rattle.kept_derive.specs.Runs.{at};
ghost use Rattle.odin_journal.specs.Faults.{JournalFaultIsCounted};
ghost use Rattle.odin_engine.specs.Engaged.{GraphStays};
ghost use Rattle.odin_store.specs.OnDisk.{StoreAfter};
ghost use Rattle.odin_answers.specs.Faults.{IsReplyToFault, StopsWithoutReply};
ghost use Rattle.odin_answers.specs.Planned.{IsPlanned};
ghost use Rattle.odin_answers.specs.Replied.{HasReplied, HasStopped};

use crate::plan::{Planned, plan_text};
use crate::shown::{node_texts, shown};
use object_values::{Memory, Reply};
use odin_engine::{AskFault, Engine, StoreFault};
use odin_outside::{Disk, Spawner, Steps};
use std::alloc::Global;
use std::marker::Brand;
use std::sync::ledger::{Blank, Ledger};
use type_graph::Graph;

/// The reply to a text that asks for an object. Each call that is run for it is kept as its tool ends, and before a view is given out what changed of
/// nodes. Where there is no reply, what runs is left.
pub fn answer_ask<D: Disk, S: Spawner>(
    alloc: Global,
    engine: &mut Engine,
    disk: &mut D,
    text: &[u8],
    tools: &mut S,
) -> Result<Reply, StoreFault>
    requires { IsIdle engine.old.store (D.size_of disk.old) (S.told tools.old) }
    ensures ok { let old = at engine.old.store disk.old (S.told tools.old) in
        IfOk result (HasReplied D.told engine.old.graph engine.old.jobs text.now
        old (at engine.new.store disk.new (S.told tools.new))) }
    ensures err { let old = at engine.old.store disk.old (S.told tools.old) in
        IfErr result (HasStopped D.told engine.old.graph engine.old.jobs text.now
        old (at engine.new.store disk.new (S.told tools.new))) }
    ensures stays { GraphStays engine.old engine.new }
    ensures rest { ComesToRest LeavesAll engine.old.jobs
        (S.told tools.old) (S.told tools.new) result }
    ensures left { StoreAfter engine.new.store (D.size_of disk.new) result }
    ensures cause { JournalFaultIsCounted (D.faults disk.old) (D.faults disk.new) result }
{
    answer_counted::<D, S, Brand>(alloc, engine, disk, text, tools, Blank::new(1))
}

// The same with a counter of steps, which nobody reads.
fn answer_counted<D: Disk, S: Spawner, L: Ledger>(
    alloc: Global,
    engine: &mut Engine,
    disk: &mut D,
    text: &[u8],
    tools: &mut S,
    blank: Blank,
) -> Result<Reply, StoreFault>
    requires blank { (blank.name ≡ L.name) × (blank.parts ≡ L.parts) × (0 < L.parts) }
    requires idle { IsIdle engine.old.store (D.size_of disk.old) (S.told tools.old) }
    ensures ok { let old = at engine.old.store disk.old (S.told tools.old) in
        IfOk result (HasReplied D.told engine.old.graph engine.old.jobs text.now
        old (at engine.new.store disk.new (S.told tools.new))) }
    ensures err { let old = at engine.old.store disk.old (S.told tools.old) in
        IfErr result (HasStopped D.told engine.old.graph engine.old.jobs text.now
        old (at engine.new.store disk.new (S.told tools.new))) }
    ensures stays { GraphStays engine.old engine.new }
    ensures rest { ComesToRest LeavesAll engine.old.jobs
        (S.told tools.old) (S.told tools.new) result }
    ensures left { StoreAfter engine.new.store (D.size_of disk.new) result }
    ensures cause { JournalFaultIsCounted (D.faults disk.old) (D.faults disk.new) result }
{
    let mut steps = Steps::<L>::new(blank);
    match engine.ask(alloc, disk, tools, text, &mut steps) {
        Ok(view) => {
            engine.store().kept().records_fit();
            Ok(shown(alloc, engine.graph(), view)?)
        }
        Err(fault) => refused(alloc, engine.graph(), fault),
    }
}

/// The reply to a text that asks for the steps to an object.
pub fn answer_plan(alloc: Global, engine: &Engine, text: &[u8]) -> Result<Planned, Memory>
    ensures { IfOk result (IsPlanned engine.now.graph text.now) }
{
    match engine.plan(alloc, text) {
        Ok(node) => Ok(Planned::Steps(plan_text(alloc, engine.graph(), &node)?)),
        Err(fault) => match refused(alloc, engine.graph(), fault) {
            Ok(reply) => Ok(Planned::Refused(reply)),
            Err(_) => Err(Memory),
        },
    }
}

// The reply for a fault, or why there is none.
fn refused(alloc: Global, graph: &Graph, fault: AskFault) -> Result<Reply, StoreFault>
    ensures ok { IfOk result (IsReplyToFault graph.now fault) }
    ensures err { IfErr result (StopsWithoutReply fault) }
{
    match fault {
        AskFault::Expression(place) => Ok(Reply::RefusedExpression(u64::from(place))),
        AskFault::UnknownType(name) => Ok(Reply::RefusedType(name)),
        AskFault::UnknownParam(name) => Ok(Reply::RefusedParam(name)),
        AskFault::Path(step) => Ok(Reply::RefusedPath(u64::from(step))),
        AskFault::Circular(chain) => {
            Ok(Reply::RefusedCircular(node_texts(alloc, graph, chain.as_slice())?))
        }
        AskFault::Deep(chain) => Ok(Reply::RefusedDeep(node_texts(
            alloc,
            graph,
            chain.as_slice(),
        )?)),
        AskFault::Spawn => Ok(Reply::RefusedToolStart),
        AskFault::Disk => Err(StoreFault::Disk),
        AskFault::Full(end, length) => Err(StoreFault::Full(end, length)),
        AskFault::Memory => Err(StoreFault::Memory),
    }
}
