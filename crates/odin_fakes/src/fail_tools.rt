// Tools in memory whose starts and ends fail by plan.
ghost use Rattle.std.specs.Prelude.{◌≡◌, ◌↔◌, ◌<◌, length, IfOk, IsErr};
ghost use Rattle.odin_outside.specs.Spawned.{IsLeastFree};
ghost use Rattle.odin_fakes.specs.Plan.{FailsNext};

use crate::plan::Failing;
use odin_memory::TableTools;
use odin_outside::{FinishFault, Job, Raw, Spawner, StartFault};
use std::alloc::Global;

/// Tools in memory whose starts and ends fail by plan, counted together. An end that fails loses the tool that would have ended.
pub type FailTools = Failing<TableTools>;

impl Spawner for Failing<TableTools> {
    ghost use Rattle.odin_fakes.specs.FailingTools.{told_failing, started_unplanned, tools_after_failed_start, wanted, OnLost, FailsAsTold, EndsAsTold, LosesAsTold, EndsUnplanned, LosesByPlan};

    ghost told = { told_failing };

    fn start(&mut self, alloc: Global, job: &Job) -> Result<u32, StartFault>
        ensures fails { (result ≡ Err StartFault.Failed) ↔ FailsNext self.old.plan }
        ensures slot { IfOk result (IsLeastFree self.old.inner.running) }
        ensures ok { IfOk result (λ slot. self.new ≡ started_unplanned self.old slot job.now) }
        ensures by_plan { FailsNext self.old.plan → self.new ≡ tools_after_failed_start self.old }
        ensures told { result ≡ Err StartFault.Failed → FailsAsTold self.old self.new }
        ensures memory { result ≡ Err StartFault.Memory → self.new ≡ wanted self.old }
    {
        if self.plan.call().is_err() {
            return Err(StartFault::Failed);
        }
        self.inner.start(alloc, job)
    }

    fn finish(&mut self, alloc: Global) -> Result<(u32, Raw), FinishFault>
        requires { 0 < length self.old.inner.running }
        ensures only { FailsNext self.old.plan → IsErr result }
        ensures ok { IfOk result (λ end. EndsUnplanned self.old end.0 end.1 self.new) }
        ensures told { IfOk result (EndsAsTold self.old self.new) }
        ensures lost { OnLost result (λ slot. LosesByPlan self.old slot self.new) }
        ensures told_lost { OnLost result (LosesAsTold self.old self.new) }
        ensures memory { result ≡ Err FinishFault.Memory → self.new ≡ wanted self.old }
    {
        if self.plan.fails_next() {
            let slot = self.inner.lose()?;
            self.plan.count_fault();
            return Err(FinishFault::Failed(slot));
        }
        self.inner.finish(alloc)
    }

    fn running(&self) -> usize {
        self.inner.running()
    }
}
