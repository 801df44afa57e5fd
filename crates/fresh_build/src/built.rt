// A build of exactly the wanted sources.
ghost use Rattle.std.specs.Prelude.{IfErr, IfOk};
ghost use Rattle.odin_journal.specs.Faults.{JournalFaultIsCounted};
ghost use Rattle.odin_store.specs.OnDisk.{StoreAfter};
ghost use Rattle.kept_derive.specs.Rests.{ComesToRest, LeavesAll};
ghost use Rattle.kept_derive.specs.Runs.{at};
ghost use Rattle.odin_engine.specs.Engaged.{GraphStays};
ghost use Rattle.fresh_build.specs.Built.{HasBuilt, HasNotBuilt, MayBuild};

use crate::set::set_sources;
use object_values::{Reply, Sources};
use odin_answers::answer_ask;
use odin_engine::{Engine, StoreFault};
use odin_outside::{Disk, Spawner};
use std::alloc::Global;

/// The reply to a text that asks for an object, from exactly the wanted sources: those that the store has besides are dropped first.
pub fn build<D: Disk, S: Spawner>(
    alloc: Global,
    engine: &mut Engine,
    disk: &mut D,
    wanted: &Sources,
    text: &[u8],
    tools: &mut S,
) -> Result<Reply, StoreFault>
    requires { MayBuild engine.old.store (D.size_of disk.old) (S.told tools.old) wanted.now.texts }
    ensures ok { let old = at engine.old.store disk.old (S.told tools.old) in
        IfOk result (HasBuilt D.told engine.old.graph engine.old.jobs wanted.now.texts text.now
        old (at engine.new.store disk.new (S.told tools.new))) }
    ensures err { let old = at engine.old.store disk.old (S.told tools.old) in
        IfErr result (HasNotBuilt D.told engine.old.graph engine.old.jobs wanted.now.texts text.now
        old (at engine.new.store disk.new (S.told tools.new))) }
    ensures stays { GraphStays engine.old engine.new }
    ensures rest { ComesToRest LeavesAll engine.old.jobs
        (S.told tools.old) (S.told tools.new) result }
    ensures left { StoreAfter engine.new.store (D.size_of disk.new) result }
    ensures cause { JournalFaultIsCounted (D.faults disk.old) (D.faults disk.new) result }
{
    set_sources(alloc, engine, disk, wanted)?;
    answer_ask(alloc, engine, disk, text, tools)
}
