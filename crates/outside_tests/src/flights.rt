// Calls in flight on small tables.
ghost use Rattle.std.specs.Prelude.{◌≡◌, [], IfOk};
ghost use Rattle.job_runner.specs.Flights.{AreTold};

use super::texts::{Text, call_of};
use job_runner::{JobFault, Jobs};
use object_values::{Call, End, Memory, Outcome, Raw, Seq, Status};
use odin_fakes::{FailTools, JobRaw, TableTools};
use odin_outside::Spawner;
use std::alloc::Global;
use std::test::Fail;
use tool_calls::job_of;

// A call with this word that is started, or isn't; the call with this word that ends, with its status; or an end that is lost.
#[derive(Clone, Copy)]
enum Step {
    Starts(Text),
    Fails(Text),
    Ends(Text, Status),
    Loses,
}

// How many run at once at most.
const MOST: u32 = 2;

// What is done; then how many run, and whether as many as may.
type Row = (Step, usize, bool);

// A call of one word.
fn call(alloc: Global, word: &[u8]) -> Result<Call, Memory> {
    call_of(alloc, &[word], &[])
}

// Starts the call, where it doesn't run and one more may.
fn start<S: Spawner>(
    alloc: Global,
    jobs: &mut Jobs,
    tools: &mut S,
    call: &Call,
) -> Option<Result<(), JobFault>>
    requires told { AreTold jobs.old.running (S.told tools.old) }
    requires limit { jobs.old.limit ≡ MOST }
    ensures told { AreTold jobs.new.running (S.told tools.new) }
    ensures limit { jobs.new.limit ≡ MOST }
{
    if jobs.running() >= MOST as usize || jobs.has(call) {
        return None;
    }
    Some(jobs.start(alloc, call, tools))
}

// The call that ends next, with its outcome.
fn finish<S: Spawner>(
    alloc: Global,
    jobs: &mut Jobs,
    tools: &mut S,
) -> Option<Result<(Call, Outcome), JobFault>>
    requires told { AreTold jobs.old.running (S.told tools.old) }
    requires limit { jobs.old.limit ≡ MOST }
    ensures told { AreTold jobs.new.running (S.told tools.new) }
    ensures limit { jobs.new.limit ≡ MOST }
{
    if jobs.running() == 0 {
        return None;
    }
    Some(jobs.finish(alloc, tools))
}

// Whether the call with this word is started, or isn't where it is to fail, and runs then or not.
fn starts<S: Spawner>(
    alloc: Global,
    jobs: &mut Jobs,
    tools: &mut S,
    word: &[u8],
    wanted: Result<(), JobFault>,
) -> Result<bool, Memory>
    requires told { AreTold jobs.old.running (S.told tools.old) }
    requires limit { jobs.old.limit ≡ MOST }
    ensures told { AreTold jobs.new.running (S.told tools.new) }
    ensures limit { jobs.new.limit ≡ MOST }
{
    let call = call(alloc, word)?;
    let went = start(alloc, jobs, tools, &call);
    Ok(went == Some(wanted) && jobs.has(&call) == wanted.is_ok())
}

// Whether the call with this word ends with this status, and runs no more.
fn ends<S: Spawner>(
    alloc: Global,
    jobs: &mut Jobs,
    tools: &mut S,
    word: &[u8],
    status: Status,
) -> Result<bool, Memory>
    requires told { AreTold jobs.old.running (S.told tools.old) }
    requires limit { jobs.old.limit ≡ MOST }
    ensures told { AreTold jobs.new.running (S.told tools.new) }
    ensures limit { jobs.new.limit ≡ MOST }
{
    let call = call(alloc, word)?;
    match finish(alloc, jobs, tools) {
        Some(Ok((ended, outcome))) => {
            Ok(ended == call && outcome.status == status && !jobs.has(&call))
        }
        _ => Ok(false),
    }
}

// Whether a step goes as it is wanted.
fn goes<S: Spawner>(
    alloc: Global,
    jobs: &mut Jobs,
    tools: &mut S,
    step: Step,
) -> Result<bool, Memory>
    requires told { AreTold jobs.old.running (S.told tools.old) }
    requires limit { jobs.old.limit ≡ MOST }
    ensures told { AreTold jobs.new.running (S.told tools.new) }
    ensures limit { jobs.new.limit ≡ MOST }
{
    match step {
        Step::Starts(word) => starts(alloc, jobs, tools, word, Ok(())),
        Step::Fails(word) => starts(alloc, jobs, tools, word, Err(JobFault::Spawn)),
        Step::Ends(word, status) => ends(alloc, jobs, tools, word, status),
        Step::Loses => Ok(finish(alloc, jobs, tools) == Some(Err(JobFault::Spawn))),
    }
}

// How many rows go as they are wanted, before the first that doesn't.
fn rows_gone<S: Spawner>(
    alloc: Global,
    jobs: &mut Jobs,
    tools: &mut S,
    rows: &[Row],
) -> Result<usize, Memory>
    requires told { AreTold jobs.old.running (S.told tools.old) }
    requires limit { jobs.old.limit ≡ MOST }
{
    'rows: for (place, (step, running, full)) in rows.iter().enumerate() {
        if !goes(alloc, jobs, tools, *step)? {
            return Ok(place);
        }
        if jobs.running() != *running || jobs.is_full() != *full {
            return Ok(place);
        }
    }
    Ok(rows.len())
}

// A job that ended with this exit status, and left no files.
fn raw(alloc: Global, code: u8) -> Raw {
    Raw {
        end: End::Exit(code),
        files: Seq::new(alloc),
    }
}

// Tools with these orders of their ends, in which the job of `ld` ends with exit status 1, and all others with 0.
fn tools(alloc: Global, order: &[u32]) -> Result<TableTools, Memory>
    ensures { IfOk result (λ tools. tools.running ≡ []) }
{
    let mut pairs = Seq::new(alloc);
    pairs.push(JobRaw {
        job: job_of(alloc, &call(alloc, b"ld")?)?,
        raw: raw(alloc, 1),
    })?;
    let order = Seq::from_vec(order.to_vec(alloc)?);
    Ok(TableTools::table(alloc, pairs, raw(alloc, 0), order))
}

// The second of two ends first, and a third goes into its slot.
const ORDERED: &[Row] = &[
    (Step::Starts(b"cc"), 1, false),
    (Step::Starts(b"ld"), 2, true),
    (Step::Ends(b"ld", Status::Error), 1, false),
    (Step::Starts(b"ar"), 2, true),
    (Step::Ends(b"cc", Status::Ok), 1, false),
    (Step::Ends(b"ar", Status::Ok), 0, false),
];

#[test]
fn gives_the_call_that_ended(rt: HostRuntime) -> Result<(), Fail> {
    let mut jobs = Jobs::new(rt.alloc(), MOST);
    let mut tools = tools(rt.alloc(), &[1])?;
    let gone = rows_gone(rt.alloc(), &mut jobs, &mut tools, ORDERED)?;
    assert!(rt; gone == 6);
    Ok(())
}

// The second start and the fourth call fail: a call isn't started, and then the end of one of two is lost.
const FAILING: &[Row] = &[
    (Step::Starts(b"cc"), 1, false),
    (Step::Fails(b"ld"), 1, false),
    (Step::Starts(b"ld"), 2, true),
    (Step::Loses, 1, false),
    (Step::Starts(b"ld"), 2, true),
    (Step::Ends(b"cc", Status::Ok), 1, false),
    (Step::Ends(b"ld", Status::Error), 0, false),
];

#[test]
fn loses_a_start_and_an_end(rt: HostRuntime) -> Result<(), Fail> {
    let mut jobs = Jobs::new(rt.alloc(), MOST);
    let fails = Seq::from_vec([2, 4].to_vec(rt.alloc())?);
    let mut tools = FailTools::new(tools(rt.alloc(), &[1])?, fails);
    let gone = rows_gone(rt.alloc(), &mut jobs, &mut tools, FAILING)?;
    assert!(rt; gone == 7);
    Ok(())
}
