// Starts and ends on small tables.
use super::texts::{Text, put_texts};
use object_values::{Memory, Seq};
use odin_fakes::{FailTools, JobRaw, TableTools};
use odin_outside::{End, FinishFault, Job, Raw, Spawner, StartFault, ToolEvent};
use std::alloc::Global;
use std::test::Fail;

// A start of the tool with this word, with its slot or why it has none; the end of the tool in a slot with its exit status; an
// end whose result is lost; or that no tool runs.
#[derive(Clone, Copy)]
enum Step {
    Starts(Text, Result<u32, StartFault>),
    Ends(u32, u8),
    Loses(u32),
    Idles,
}

// A list of numbers, as orders and the plans of failures take it.
fn numbers(alloc: Global, items: &[u32]) -> Result<Seq<u32>, Memory> {
    Ok(Seq::from_vec(items.to_vec(alloc)?))
}

// A job of one word, with no files and no outputs.
fn job(alloc: Global, word: &[u8]) -> Result<Job, Memory> {
    let mut words = Seq::new(alloc);
    put_texts(alloc, &mut words, &[word])?;
    Ok(Job {
        words,
        files: Seq::new(alloc),
        outs: Seq::new(alloc),
    })
}

// An exit status, with no files.
fn raw(alloc: Global, code: u8) -> Raw {
    Raw {
        end: End::Exit(code),
        files: Seq::new(alloc),
    }
}

// The slot in which the tool with this word was started.
fn start(alloc: Global, tools: &mut impl Spawner, word: &[u8]) -> Result<u32, StartFault> {
    let job = job(alloc, word)?;
    tools.start(alloc, &job)
}

// The slot and the end of the next tool that ends.
fn finish(alloc: Global, tools: &mut impl Spawner) -> Option<Result<(u32, End), FinishFault>> {
    if tools.running() == 0 {
        return None;
    }
    match tools.finish(alloc) {
        Ok((slot, raw)) => Some(Ok((slot, raw.end))),
        Err(fault) => Some(Err(fault)),
    }
}

// Whether a step goes as it is wanted.
fn goes(alloc: Global, tools: &mut impl Spawner, step: Step) -> bool {
    match step {
        Step::Starts(word, wanted) => start(alloc, tools, word) == wanted,
        Step::Ends(slot, code) => finish(alloc, tools) == Some(Ok((slot, End::Exit(code)))),
        Step::Loses(slot) => finish(alloc, tools) == Some(Err(FinishFault::Failed(slot))),
        Step::Idles => finish(alloc, tools) == None,
    }
}

// How many steps go as they are wanted, before the first that doesn't.
fn steps_gone(alloc: Global, tools: &mut impl Spawner, steps: &[Step]) -> usize {
    for (place, step) in steps.iter().enumerate() {
        if !goes(alloc, tools, *step) {
            return place;
        }
    }
    steps.len()
}

// Tools that run the words of jobs, and their exit statuses.
const ANSWERS: &[(&[u8], u8)] = &[(b"cc", 1), (b"ld", 2), (b"cc", 3)];

// Adds the jobs of the words, with their exit statuses, to a list.
fn put_answers(alloc: Global, pairs: &mut Seq<JobRaw>) -> Result<(), Memory> {
    for (word, code) in ANSWERS {
        pairs.push(JobRaw {
            job: job(alloc, word)?,
            raw: raw(alloc, *code),
        })?;
    }
    Ok(())
}

// Tools with the answers, whose first end is that of the second of three.
fn ordered(alloc: Global) -> Result<TableTools, Memory> {
    let order = numbers(alloc, &[4])?;
    let mut pairs = Seq::new(alloc);
    put_answers(alloc, &mut pairs)?;
    Ok(TableTools::table(alloc, pairs, raw(alloc, 9), order))
}

const ORDERED: &[Step] = &[
    Step::Starts(b"ld", Ok(0)),
    Step::Starts(b"cc", Ok(1)),
    Step::Starts(b"ar", Ok(2)),
    Step::Ends(1, 1),
    Step::Starts(b"ld", Ok(1)),
    Step::Ends(0, 2),
    Step::Ends(2, 9),
    Step::Ends(1, 2),
    Step::Idles,
];

// Whether the steps go as they are wanted, and are told in the log.
fn goes_in_order(alloc: Global, tools: &mut TableTools) -> bool {
    steps_gone(alloc, tools, ORDERED) == 9
        && tools.log().len() == 8
        && matches!(tools.log().get(3), Some(ToolEvent::Ended(1)))
}

#[test]
fn ends_tools_in_the_stated_order(rt: HostRuntime) -> Result<(), Fail> {
    let mut tools = ordered(rt.alloc())?;
    assert!(rt; goes_in_order(rt.alloc(), &mut tools));
    Ok(())
}

// Tools whose second and fourth call fail.
fn failing(alloc: Global) -> Result<FailTools, Memory> {
    let order = numbers(alloc, &[1])?;
    let fails = numbers(alloc, &[2, 4])?;
    let inner = TableTools::table(alloc, Seq::new(alloc), raw(alloc, 0), order);
    Ok(FailTools::new(inner, fails))
}

const FAILING: &[Step] = &[
    Step::Starts(b"cc", Ok(0)),
    Step::Starts(b"cc", Err(StartFault::Failed)),
    Step::Starts(b"cc", Ok(1)),
    Step::Loses(1),
    Step::Starts(b"cc", Ok(1)),
    Step::Ends(0, 0),
    Step::Ends(1, 0),
    Step::Idles,
];

// Whether the steps go as they are wanted, and are told in the log.
fn goes_by_plan(alloc: Global, tools: &mut FailTools) -> bool {
    steps_gone(alloc, tools, FAILING) == 8
        && tools.inner().log().len() == 6
        && matches!(tools.inner().log().get(2), Some(ToolEvent::Lost(1)))
}

#[test]
fn fails_at_chosen_starts_and_ends(rt: HostRuntime) -> Result<(), Fail> {
    let mut tools = failing(rt.alloc())?;
    assert!(rt; goes_by_plan(rt.alloc(), &mut tools));
    Ok(())
}

const TOYS: &[Step] = &[
    Step::Starts(b"ld", Ok(0)),
    Step::Ends(0, 0),
    Step::Starts(b"ar", Ok(0)),
    Step::Ends(0, 127),
];

#[test]
fn answers_as_the_toy_tools(rt: HostRuntime) {
    let mut tools = TableTools::toy(rt.alloc(), Seq::new(rt.alloc()));
    assert!(rt; steps_gone(rt.alloc(), &mut tools, TOYS) == 4);
}
