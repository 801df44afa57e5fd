// Tools whose answers stand in memory.
ghost use Rattle.std.specs.Prelude.{◌≡◌, ◌≢◌, ◌↔◌, ◌<◌, ◌++◌, ◌∷◌, [], length, IsTrue, IfOk, IfSome, OnOk, OnErr, ℕ};
ghost use Rattle.odin_outside.specs.Spawned.{IsRunning, IsLeastFree, Ends};

use crate::answers::{Answers, JobRaw};
use object_values::{Copied, Memory, Seq};
use odin_outside::{FinishFault, Job, Raw, Running, Spawner, StartFault, ToolEvent};
use std::alloc::Global;
use std::marker::Model;

/// Tools whose answers stand in memory. They never fail.
pub struct TableTools {
    answers: Answers,
    order: Seq<u32>,
    ended: usize,
    running: Vec<Running>,
    log: Vec<ToolEvent>,
    starts: u64,
}

impl Model for TableTools {
    ghost use Rattle.std.specs.Prelude.{drop, length, ◌≤◌};
    ghost use Rattle.odin_memory.specs.Tools.{Tools};

    ghost Value = { Tools };

    ghost view = { λ t. record { answers = t.answers; order = drop t.ended t.order; running = t.running.items; log = t.log.items; starts = t.starts } };

    ghost invariant = { λ t. t.ended ≤ length t.order };
}

impl Drop for TableTools {
    fn drop(self) {
        let TableTools {
            answers,
            order,
            ended: _,
            running,
            log,
            starts: _,
        } = self;
        drop(answers);
        drop(order);
        drop(running);
        drop(log);
    }
}

fn is_running(running: &[Running], slot: u32) -> bool
    ensures { IsTrue result ↔ IsRunning running.now slot }
{
    running.iter().any(|tool| tool.slot == slot)
}

fn least_free(running: &[Running]) -> Option<u32>
    ensures { IfSome result (IsLeastFree running.now) }
{
    for slot in 0..u32::MAX {
        if !is_running(running, slot) {
            return Some(slot);
        }
    }
    None
}

// Notes the start of a job in a slot.
fn note_start(alloc: Global, log: &mut Vec<ToolEvent>, slot: u32, job: &Job) -> Result<(), Memory>
    ensures ok { OnOk result (log.new.items ≡ log.old.items ++ ToolEvent.Began slot job.now ∷ []) }
    ensures err { OnErr result (log.new.items ≡ log.old.items) }
{
    let noted = job.copy(alloc)?;
    log.push(ToolEvent::Began(slot, noted))?;
    Ok(())
}

impl TableTools {
    ghost use Rattle.odin_memory.specs.Tools.{new_tools, next_place, ended, LosesNext};

    fn with_answers(alloc: Global, answers: Answers, order: Seq<u32>) -> Self
        ensures { result ≡ new_tools answers order }
    {
        TableTools {
            answers,
            order,
            ended: 0,
            running: Vec::new(alloc),
            log: Vec::new(alloc),
            starts: 0,
        }
    }

    /// A job leaves the raw of the first pair with that job, or the other one. At an end the next number of the order, modulo the
    /// tools that run, is the place of the tool that ends, among them in the order of their starts; the place is 0 when the list
    /// is used up.
    pub fn table(alloc: Global, pairs: Seq<JobRaw>, other: Raw, order: Seq<u32>) -> Self
        ensures { result ≡ new_tools (Answers.Pairs pairs other) order }
    {
        TableTools::with_answers(alloc, Answers::Pairs(pairs, other), order)
    }

    /// A job leaves what the toy tool that its first word names makes of it. The tools end in the order as above.
    pub fn toy(alloc: Global, order: Seq<u32>) -> Self
        ensures { result ≡ new_tools Answers.Toys order }
    {
        TableTools::with_answers(alloc, Answers::Toys, order)
    }

    /// The starts and ends so far.
    pub fn log(&self) -> &[ToolEvent]
        ensures { result.now ≡ self.now.log }
    {
        &self.log
    }

    /// How many were started so far.
    pub fn starts(&self) -> u64
        ensures { result ≡ self.now.starts }
    {
        self.starts
    }

    fn next_place(&self) -> usize
        requires { 0 < length self.now.running }
        ensures { result ≡ next_place self.now }
    {
        match self.order.as_slice().get(self.ended) {
            Some(place) => *place as usize % self.running.len(),
            None => 0,
        }
    }

    // Takes the tool at the next place out, and notes this.
    fn end_next(&mut self, place: usize, event: ToolEvent) -> Result<(), Memory>
        requires some { 0 < length self.old.running }
        requires next { place ≡ next_place self.old }
        ensures ok { OnOk result (self.new ≡ ended self.old event) }
        ensures err { OnErr result (self.new ≡ self.old) }
    {
        self.log.push(event)?;
        self.running.remove(place);
        self.ended = self.ended.saturating_add(1).min(self.order.len());
        Ok(())
    }

    /// Ends the next tool in the order, as a fault of the system would: what it left is lost. Gives its slot, and counts no fault.
    pub fn lose(&mut self) -> Result<u32, Memory>
        requires { 0 < length self.old.running }
        ensures ok { IfOk result (λ slot. LosesNext self.old slot self.new) }
        ensures err { OnErr result (self.new ≡ self.old) }
    {
        let place = self.next_place();
        let slot = self.running[place].slot;
        self.end_next(place, ToolEvent::Lost(slot))?;
        Ok(slot)
    }
}

impl Spawner for TableTools {
    ghost use Rattle.odin_memory.specs.Tools.{tools_view, tools_after_start, EndsNext};

    ghost told = { tools_view };

    fn start(&mut self, alloc: Global, job: &Job) -> Result<u32, StartFault>
        ensures slot { IfOk result (IsLeastFree self.old.running) }
        ensures ok { IfOk result (λ slot. self.new ≡ tools_after_start self.old slot job.now) }
        ensures err { OnErr result (self.new ≡ self.old) }
        ensures only { result ≢ Err StartFault.Failed }
    {
        let Some(slot) = least_free(&self.running) else {
            return Err(StartFault::Memory);
        };
        self.running.reserve(1).map_err(|_| StartFault::Memory)?;
        let kept = job.copy(alloc)?;
        note_start(alloc, &mut self.log, slot, job)?;
        self.running
            .push(Running { slot, job: kept })
            .map_err(|_| StartFault::Memory)?;
        self.starts = self.starts.saturating_add(1);
        Ok(slot)
    }

    fn finish(&mut self, alloc: Global) -> Result<(u32, Raw), FinishFault>
        requires { 0 < length self.old.running }
        ensures ok { IfOk result (λ end. EndsNext self.old end.0 end.1 self.new) }
        ensures told { IfOk result
            (λ end. Ends (tools_view self.old) end.0 end.1 (tools_view self.new)) }
        ensures err { OnErr result (self.new ≡ self.old) }
        ensures only { (slot : ℕ) → result ≢ Err (FinishFault.Failed slot) }
    {
        let place = self.next_place();
        let tool = &self.running[place];
        let slot = tool.slot;
        let raw = self.answers.answer(alloc, &tool.job)?;
        self.end_next(place, ToolEvent::Ended(slot))?;
        Ok((slot, raw))
    }

    fn running(&self) -> usize {
        self.running.len()
    }
}
