// What starts child programs.
ghost use Rattle.std.specs.Prelude.{◌≡◌, ◌<◌, length, IfOk};
ghost use Rattle.odin_outside.specs.Spawned.{Spawned, IsLeastFree, begun, Fails, Ends, LosesAt};

use object_values::{Copied, Job, Memory, Raw};
use std::alloc::Global;

/// Why a child program was not started.
#[derive(Clone, Copy, PartialEq, Eq)]
pub enum StartFault {
    Failed,
    Memory,
}

/// Why the end of a child program was not given. `Failed` names the slot whose result is lost.
#[derive(Clone, Copy, PartialEq, Eq)]
pub enum FinishFault {
    Failed(u32),
    Memory,
}

impl From<Memory> for StartFault {
    ghost use Rattle.odin_outside.specs.declared.spawner.StartFault.{StartFault};
    ghost use Rattle.std.specs.Prelude.{◌≡◌};

    ghost from_gives = { λ _ fault. fault ≡ StartFault.Memory };

    fn from(_: Memory) -> Self {
        StartFault::Memory
    }
}

impl From<Memory> for FinishFault {
    ghost use Rattle.odin_outside.specs.declared.spawner.FinishFault.{FinishFault};
    ghost use Rattle.std.specs.Prelude.{◌≡◌};

    ghost from_gives = { λ _ fault. fault ≡ FinishFault.Memory };

    fn from(_: Memory) -> Self {
        FinishFault::Memory
    }
}

impl Copied for StartFault {
    fn copy(&self, _alloc: Global) -> Result<Self, Memory> {
        Ok(*self)
    }
}

impl Copied for FinishFault {
    fn copy(&self, _alloc: Global) -> Result<Self, Memory> {
        Ok(*self)
    }
}

/// What starts child programs, each in a slot. An end is waited for; which child program ends first is open.
pub trait Spawner {
    /// What it tells of the answers to jobs, of what runs and of what happened, with the count of its faults.
    ghost told: { Self → Spawned };

    /// Starts a child program, and gives its slot. Where it fails nothing was started.
    fn start(&mut self, alloc: Global, job: &Job) -> Result<u32, StartFault>
        ensures slot { IfOk result (IsLeastFree (told self.old).running) }
        ensures ok { IfOk result (λ slot. told self.new ≡ begun (told self.old) slot job.now) }
        ensures failed { result ≡ Err StartFault.Failed → Fails (told self.old) (told self.new) }
        ensures memory { result ≡ Err StartFault.Memory → told self.new ≡ told self.old };

    /// Waits for the end of a child program, and gives its slot and what it left. No clause says which files these are.
    fn finish(&mut self, alloc: Global) -> Result<(u32, Raw), FinishFault>
        requires { 0 < length (told self.old).running }
        ensures ok { IfOk result (λ end. Ends (told self.old) end.0 end.1 (told self.new)) }
        ensures lost { LosesAt (told self.old) (told self.new) result }
        ensures memory { result ≡ Err FinishFault.Memory → told self.new ≡ told self.old };

    fn running(&self) -> usize
        ensures { result ≡ length (told self.now).running };
}
