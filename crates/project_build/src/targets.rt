// The targets, one after another.
ghost use Rattle.std.specs.Prelude.{map, IfOk, IfErr, OnOk, OnErr};
ghost use Rattle.odin_outside.specs.Causes.{HasCauseBut};
ghost use Rattle.kept_derive.specs.Calls.{IsIdle};
ghost use Rattle.kept_derive.specs.Rests.{ComesToRest};
ghost use Rattle.kept_derive.specs.Runs.{at};
ghost use Rattle.odin_engine.specs.Engaged.{GraphStays};
ghost use Rattle.project_build.specs.Writes as writes;
ghost use Rattle.project_build.specs.Built as meaning;

use crate::fault::TargetFault;
use crate::object::write_object;
use crate::outputs::{OutputFault, Outputs};
use crate::status::good_body;
use object_values::{Copied, Reply, Seq};
use odin_answers::answer_ask;
use odin_engine::Engine;
use odin_outside::{Disk, Spawner};
use project_file::project::Target;
use std::alloc::Global;

/// Writes the files of a target, where the reply shows an object without errors.
fn write_reply<O: Outputs>(
    alloc: Global,
    outputs: &mut O,
    file: &[u8],
    reply: &Reply,
) -> Result<(), OutputFault>
    ensures ok { OnOk result (writes.HaveWritten (O.files outputs.old)
        (meaning.writes_for file.now reply.now) (O.files outputs.new)) }
    ensures err { OnErr result (writes.HasWrittenSome
        (meaning.writes_for file.now reply.now) (O.files outputs.old) (O.files outputs.new)) }
    ensures cause { HasCauseBut OutputFault.Memory
        (O.faults outputs.old) (O.faults outputs.new) result }
{
    match good_body(reply) {
        Some(body) => write_object(alloc, outputs, file, body),
        None => Ok(()),
    }
}

/// Why a file of a target was not written.
fn output_fault(alloc: Global, target: &Target, fault: OutputFault) -> TargetFault
    ensures { meaning.IsOutputFault target.now.name fault result }
{
    match fault {
        OutputFault::Failed => match target.name.copy(alloc) {
            Ok(name) => TargetFault::Output(name),
            Err(_) => TargetFault::Memory,
        },
        OutputFault::Memory => TargetFault::Memory,
    }
}

/// Asks for a target, and writes its files.
fn build_target<D: Disk, S: Spawner, O: Outputs>(
    alloc: Global,
    engine: &mut Engine,
    disk: &mut D,
    target: &Target,
    tools: &mut S,
    outputs: &mut O,
) -> Result<Reply, TargetFault>
    requires { IsIdle engine.old.store (D.size_of disk.old) (S.told tools.old) }
    ensures ok { let old = at engine.old.store disk.old (S.told tools.old) in
        let new = at engine.new.store disk.new (S.told tools.new) in
        IfOk result (λ reply. meaning.IsBuilt D.told engine.old.graph engine.old.jobs target.now
        reply (meaning.standing old (O.files outputs.old))
        (meaning.standing new (O.files outputs.new))) }
    ensures err { let old = at engine.old.store disk.old (S.told tools.old) in
        let new = at engine.new.store disk.new (S.told tools.new) in
        IfErr result (λ why. meaning.FailsTarget D.told engine.old.graph engine.old.jobs target.now
        why (meaning.standing old (O.files outputs.old))
        (meaning.standing new (O.files outputs.new))) }
    ensures stays { GraphStays engine.old engine.new }
    ensures rest { ComesToRest meaning.LeavesTools engine.old.jobs
        (S.told tools.old) (S.told tools.new) result }
    ensures left { OnOk result
        (IsIdle engine.new.store (D.size_of disk.new) (S.told tools.new)) }
    ensures cause { meaning.TargetFaultIsCounted (D.faults disk.old) (D.faults disk.new)
        (O.faults outputs.old) (O.faults outputs.new) result }
{
    let reply = answer_ask(alloc, engine, disk, target.ask.as_slice(), tools)?;
    match write_reply(alloc, outputs, target.file.as_slice(), &reply) {
        Ok(()) => Ok(reply),
        Err(fault) => Err(output_fault(alloc, target, fault)),
    }
}

/// Builds targets, one after another, and gives their replies.
pub(crate) fn build_targets<D: Disk, S: Spawner, O: Outputs>(
    alloc: Global,
    engine: &mut Engine,
    disk: &mut D,
    targets: &[&Target],
    tools: &mut S,
    outputs: &mut O,
) -> Result<Seq<Reply>, TargetFault>
    requires { IsIdle engine.old.store (D.size_of disk.old) (S.told tools.old) }
    ensures ok { let old = at engine.old.store disk.old (S.told tools.old) in
        let new = at engine.new.store disk.new (S.told tools.new) in
        IfOk result (λ replies. meaning.AreBuilt D.told engine.old.graph engine.old.jobs
        (meaning.standing old (O.files outputs.old)) (map (λ t. t.now) targets.now)
        replies (meaning.standing new (O.files outputs.new))) }
    ensures err { let old = at engine.old.store disk.old (S.told tools.old) in
        let new = at engine.new.store disk.new (S.told tools.new) in
        IfErr result (λ why. meaning.StopsBuilding D.told engine.old.graph engine.old.jobs
        (map (λ t. t.now) targets.now) (meaning.standing old (O.files outputs.old))
        (meaning.standing new (O.files outputs.new)) why) }
    ensures rest { ComesToRest meaning.LeavesTools engine.old.jobs
        (S.told tools.old) (S.told tools.new) result }
    ensures cause { meaning.TargetFaultIsCounted (D.faults disk.old) (D.faults disk.new)
        (O.faults outputs.old) (O.faults outputs.new) result }
{
    let mut replies = Seq::new(alloc);
    'targets: for target in targets {
        let reply = build_target(alloc, engine, disk, target, tools, outputs)?;
        replies.push(reply)?;
    }
    Ok(replies)
}
