// One command: its change, and its reply.
ghost use Rattle.std.specs.Prelude.{◌≡◌, [], IfOk, OnOk, IfErr};
ghost use Rattle.meaning_derive.specs.Answers as answers;
ghost use Rattle.meaning_commands.specs.Objects.{SinkTold};
ghost use Rattle.odin_journal.specs.Faults.{FileIsOurs, JournalFaultIsCounted};
ghost use Rattle.odin_answers.specs.Edits.{SaysReply, tree_of};
ghost use Rattle.odin_shell.specs.Objects.{told_by};
ghost use Rattle.odin_shell.specs.Served.{telling, MayServe, Answers, HaltsCommand, AnswersAsk, HaltsAsk, CountsStop, IsOnward};
ghost use Rattle.odin_shell.specs.Sessions.{ServesInSession, StopsServingInSession};

use crate::stop::Stop;
use crate::whole::Whole;
use crate::write::write_whole;
use object_values::{Bytes, Memory};
use odin_answers::{Planned, answer_ask, answer_plan, list, put, refuse_name, remove, take};
use odin_commands::{Command, Reply, ends_run, text_of};
use odin_engine::{Engine, StoreFault};
use odin_outside::{Disk, Sink, Spawner, Tree};
use std::alloc::Global;

/// Serves a command: its change, and then its reply, which is taken whole.
pub(crate) fn serve_command<O: Sink, T: Tree, S: Spawner, D: Disk>(
    alloc: Global,
    engine: &mut Engine,
    whole: Whole,
    output: &mut O,
    tree: &mut T,
    tools: &mut S,
    disk: &mut D,
) -> Result<(), Stop>
    requires { MayServe 1 engine.old (D.size_of disk.old) (S.told tools.old) }
    ensures ok { let told = told_by O.Sink T.Tree S.Spawner in
        let before = told output.old tree.old tools.old disk.old in
        let after = told output.new tree.new tools.new disk.new in
        OnOk result (ServesInSession D.Disk engine.old engine.new whole before after) }
    ensures err { let told = told_by O.Sink T.Tree S.Spawner in
        let before = told output.old tree.old tools.old disk.old in
        let after = told output.new tree.new tools.new disk.new in
        IfErr result (λ stop. StopsServingInSession D.Disk stop engine.old whole before after) }
    ensures counted { IfErr result
        (λ stop. CountsStop stop (D.faults disk.old) (D.faults disk.new)) }
    ensures onward { OnOk result (IsOnward D.Disk 1 engine.old engine.new disk.old disk.new) }
{
    let last = ends_run(&whole.command);
    let reply = match answer(alloc, engine, whole, tree, tools, disk) {
        Ok(reply) => reply,
        Err(fault) => return Err(Stop::of_store(fault)),
    };
    write_whole(output, reply.as_slice())?;
    if last {
        return Err(Stop::Quit);
    }
    Ok(())
}

// Makes the change of a command, and its reply.
fn answer<T: Tree, S: Spawner, D: Disk>(
    alloc: Global,
    engine: &mut Engine,
    whole: Whole,
    tree: &mut T,
    tools: &mut S,
    disk: &mut D,
) -> Result<Bytes, StoreFault>
    requires { MayServe 1 engine.old (D.size_of disk.old) (S.told tools.old) }
    ensures ok { let told = tree_of T.Tree in
        IfOk result (λ reply. (sink : SinkTold) → Answers D.Disk engine.old whole.command whole.body
        (telling sink (S.told tools.old) (told tree.old) disk.old) reply engine.new
        (telling sink (S.told tools.new) (told tree.new) disk.new)) }
    ensures err { let told = tree_of T.Tree in
        IfErr result (λ why. (sink : SinkTold) →
        HaltsCommand D.Disk engine.old whole.command whole.body
        (telling sink (S.told tools.old) (told tree.old) disk.old) why
        (telling sink (S.told tools.new) (told tree.new) disk.new)) }
    ensures cause { JournalFaultIsCounted (D.faults disk.old) (D.faults disk.new) result }
    ensures ours { IfErr result FileIsOurs }
    ensures onward { OnOk result (IsOnward D.Disk 1 engine.old engine.new disk.old disk.new) }
    ensures idle { OnOk result ((S.told tools.new).running ≡ []) }
{
    let (command, body) = whole.into_parts();
    match command {
        Command::Put(name, count) => put(alloc, engine, disk, name, count, body),
        Command::Take(name) => take(alloc, engine, disk, name, tree),
        Command::Remove(name) => remove(alloc, engine, disk, name),
        Command::Ask(text) => ask(alloc, engine, text.as_slice(), tools, disk),
        Command::Plan(text) => Ok(plan(alloc, engine, text.as_slice())?),
        Command::Sources => Ok(list(alloc, engine)?),
        Command::Kept => Ok(text_of(alloc, Reply::Kept(engine.store().kept().calls()))?),
        Command::Quit => Ok(text_of(alloc, Reply::Bye)?),
        Command::Nothing => Ok(Bytes::new(alloc)),
        Command::Bad => Ok(text_of(alloc, Reply::RefusedCommand)?),
        Command::BadName(count) => Ok(refuse_name(alloc, count)?),
    }
}

// The reply to a text that asks for an object.
fn ask<S: Spawner, D: Disk>(
    alloc: Global,
    engine: &mut Engine,
    text: &[u8],
    tools: &mut S,
    disk: &mut D,
) -> Result<Bytes, StoreFault>
    requires { MayServe 1 engine.old (D.size_of disk.old) (S.told tools.old) }
    ensures ok { let asks = AnswersAsk D.Disk engine.old text.now (S.told tools.old) disk.old in
        IfOk result (λ reply. asks reply engine.new (S.told tools.new) disk.new) }
    ensures err { let halts = HaltsAsk D.Disk engine.old text.now (S.told tools.old) disk.old in
        IfErr result (λ why. halts why (S.told tools.new) disk.new) }
    ensures cause { JournalFaultIsCounted (D.faults disk.old) (D.faults disk.new) result }
    ensures ours { IfErr result FileIsOurs }
    ensures onward { OnOk result (IsOnward D.Disk 1 engine.old engine.new disk.old disk.new) }
    ensures idle { OnOk result ((S.told tools.new).running ≡ []) }
{
    let reply = answer_ask(alloc, engine, disk, text, tools)?;
    Ok(text_of(alloc, reply)?)
}

// The reply to a text that asks for the steps to an object.
fn plan(alloc: Global, engine: &Engine, text: &[u8]) -> Result<Bytes, Memory>
    ensures { IfOk result (SaysReply (answers.Plan engine.now.graph text.now)) }
{
    match answer_plan(alloc, engine, text)? {
        Planned::Steps(bytes) => Ok(bytes),
        Planned::Refused(reply) => text_of(alloc, reply),
    }
}
