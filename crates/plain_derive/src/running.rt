// Wanted calls, run one after another.
ghost use Rattle.std.specs.Prelude.{◌≡◌, [], None, OnOk, IfOk, IfErr};
ghost use Rattle.odin_outside.specs.declared.events.ToolEvent.TheVariants.{Ended};
ghost use Rattle.job_runner.specs.Made.{IsOutcomeOfCall};
ghost use Rattle.plain_derive.specs.Logs.{closed, IsCut};
ghost use Rattle.plain_derive.specs.Ways.{ExtendsDerivation, StopsWalk};

use derive_walk::Walker;
use job_runner::JobFault;
use object_values::{Call, Copied, Outcome};
use odin_outside::Spawner;
use std::alloc::Global;
use tool_calls::{job_of, outcome_of};

/// Runs each call that is wanted now.
pub(crate) fn run_wanted<S: Spawner>(
    alloc: Global,
    walker: &mut Walker,
    tools: &mut S,
) -> Result<(), JobFault>
    requires idle { (S.told tools.old).running ≡ [] }
    requires none { walker.old.result ≡ None }
    ensures on { OnOk result
        (ExtendsDerivation walker.old (S.told tools.old) walker.new (S.told tools.new)) }
    ensures stops { IfErr result (StopsWalk walker.old (S.told tools.old) (S.told tools.new)) }
    ensures none { walker.new.result ≡ None }
    ensures idle { OnOk result ((S.told tools.new).running ≡ []) }
{
    let count = walker.wanted().len();
    for _ in 0..count {
        run_first(alloc, walker, tools)?;
    }
    Ok(())
}

// Runs the first wanted call, if there is one.
fn run_first<S: Spawner>(alloc: Global, walker: &mut Walker, tools: &mut S) -> Result<(), JobFault>
    requires idle { (S.told tools.old).running ≡ [] }
    requires none { walker.old.result ≡ None }
    ensures on { OnOk result
        (ExtendsDerivation walker.old (S.told tools.old) walker.new (S.told tools.new)) }
    ensures stops { IfErr result (StopsWalk walker.old (S.told tools.old) (S.told tools.new)) }
    ensures none { walker.new.result ≡ None }
    ensures idle { OnOk result ((S.told tools.new).running ≡ []) }
{
    let Some(first) = walker.wanted().first() else {
        return Ok(());
    };
    let call = first.copy(alloc)?;
    let outcome = run_call(alloc, &call, tools)?;
    walker.give(&call, outcome)?;
    Ok(())
}

/// Runs the tool of a call to its end, while no other runs.
pub fn run_call<S: Spawner>(alloc: Global, call: &Call, tools: &mut S) -> Result<Outcome, JobFault>
    requires { (S.told tools.old).running ≡ [] }
    ensures outcome { IfOk result (IsOutcomeOfCall (S.told tools.old).answer call.now) }
    ensures made { OnOk result (S.told tools.new ≡ closed (S.told tools.old) call.now (Ended 0)) }
    ensures cut { IfErr result (λ fault. IsCut fault call.now
        (S.told tools.old) (S.told tools.new)) }
{
    let job = job_of(alloc, call)?;
    tools.start(alloc, &job)?;
    let (_, raw) = tools.finish(alloc)?;
    let outcome = outcome_of(alloc, call, &raw)?;
    Ok(outcome)
}
