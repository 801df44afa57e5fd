//! Tools of which a watcher is told.
ghost use Rattle.std.specs.Prelude.{◌≡◌, ◌<◌, Err, length, IfOk};
ghost use Rattle.odin_outside.specs.Spawned.{IsLeastFree, begun, Fails, Ends, LosesAt};

use odin_outside::{FinishFault, Job, Raw, Spawner, StartFault};
use std::alloc::Global;

/// Who is told of each start and of each end. Nothing comes back from it.
pub trait Watch {
    /// A tool was started in a slot.
    fn began(&mut self, alloc: Global, slot: u32, job: &Job);

    /// The tool in a slot has ended, whether its result is known or lost.
    fn ended(&mut self, alloc: Global, slot: u32);
}

/// Tools of which a watcher is told. What they tell of themselves is what they tell without it: so what is proved of a build over them is what is proved
/// of one over the tools alone.
#[derive(Drop)]
pub struct Watched<S: Spawner + Drop, W: Watch + Drop> {
    tools: S,
    watcher: W,
}

impl<S: Spawner + Drop, W: Watch + Drop> Watched<S, W> {
    pub fn new(tools: S, watcher: W) -> Self
        ensures tools { result.tools ≡ tools }
        ensures watcher { result.watcher ≡ watcher }
    {
        Watched { tools, watcher }
    }

    pub fn into_parts(self) -> (S, W)
        ensures tools { result.0 ≡ self.tools }
        ensures watcher { result.1 ≡ self.watcher }
    {
        let Watched { tools, watcher } = self;
        (tools, watcher)
    }
}

impl<S: Spawner + Drop, W: Watch + Drop> Spawner for Watched<S, W> {
    ghost told = { λ w. S.told w.tools };

    fn start(&mut self, alloc: Global, job: &Job) -> Result<u32, StartFault>
        ensures slot { IfOk result (IsLeastFree (S.told self.old.tools).running) }
        ensures ok { IfOk result
            (λ slot. S.told self.new.tools ≡ begun (S.told self.old.tools) slot job.now) }
        ensures failed { result ≡ Err StartFault.Failed →
            Fails (S.told self.old.tools) (S.told self.new.tools) }
        ensures memory { result ≡ Err StartFault.Memory →
            S.told self.new.tools ≡ S.told self.old.tools }
    {
        let started = self.tools.start(alloc, job);
        if let Ok(slot) = started {
            self.watcher.began(alloc, slot, job);
        }
        started
    }

    fn finish(&mut self, alloc: Global) -> Result<(u32, Raw), FinishFault>
        requires { 0 < length (S.told self.old.tools).running }
        ensures ok { IfOk result
            (λ end. Ends (S.told self.old.tools) end.0 end.1 (S.told self.new.tools)) }
        ensures lost { LosesAt (S.told self.old.tools) (S.told self.new.tools) result }
        ensures memory { result ≡ Err FinishFault.Memory →
            S.told self.new.tools ≡ S.told self.old.tools }
    {
        let ended = self.tools.finish(alloc);
        match &ended {
            Ok((slot, _)) => self.watcher.ended(alloc, *slot),
            Err(FinishFault::Failed(slot)) => self.watcher.ended(alloc, *slot),
            Err(FinishFault::Memory) => {}
        }
        ended
    }

    fn running(&self) -> usize {
        self.tools.running()
    }
}
