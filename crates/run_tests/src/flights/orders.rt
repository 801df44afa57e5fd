// The order in which tools end changes no byte and no start.
use super::project::{ASK, CALLS, Events, OBJECT, PUT_REPLIES, PUTS, order_of, ran_with};
use crate::stored::{Text, disk_of};
use object_values::{Memory, Seq};
use odin_fakes::{FailTools, TableTools};
use odin_outside::Spawner;
use std::alloc::Global;
use std::test::Fail;
use test_support::only;

// Two units.
const TWO: Text = b"put m.sm 8\na.c\nb.c\nput a.c 4\nx=1\nput b.c 4\ny=2\nask m.sm:exe\n";

const TWO_LINKED: Text =
    b"put m.sm 8\nput a.c 4\nput b.c 4\nobject ok simple 8\nx=1\ny=2\n\nmessages 0\n";

// The places of the tools that end, among those that run.
const ORDERS: &[&[u32]] = &[&[], &[1], &[1, 1, 1], &[0, 1, 0, 1]];

// Whether two tools at once that end in this order link the two units by five calls.
fn links_two(alloc: Global, places: &[u32]) -> Result<bool, Memory> {
    let mut tools = TableTools::toy(alloc, order_of(alloc, places)?);
    let mut disk = disk_of(alloc, b"")?;
    let ran = ran_with(alloc, "2", &mut disk, TWO, &mut tools)?;
    Ok(ran.replied(TWO_LINKED) && Events::of(tools.log()).began == 5)
}

#[test]
fn two_units_are_linked_alike_in_each_order(rt: HostRuntime) -> Result<(), Fail> {
    for places in ORDERS {
        assert!(rt; links_two(rt.alloc(), places)?);
    }
    Ok(())
}

// The replies of the project, and what is kept after them.
fn project(alloc: Global) -> Result<(Vec<u8>, Vec<u8>), Memory> {
    let mut commands = PUTS.to_vec(alloc)?;
    commands.extend_from_slice(ASK)?;
    commands.extend_from_slice(b"kept\n")?;
    let mut replies = PUT_REPLIES.to_vec(alloc)?;
    replies.extend_from_slice(OBJECT)?;
    replies.extend_from_slice(b"kept 13\n")?;
    Ok((commands, replies))
}

// Whether the project is built so by tools that end in this order, so many at once.
fn builds(alloc: Global, jobs: &str, places: &[u32]) -> Result<bool, Memory> {
    let (commands, replies) = project(alloc)?;
    let mut tools = TableTools::toy(alloc, order_of(alloc, places)?);
    let mut disk = disk_of(alloc, b"")?;
    let ran = ran_with(alloc, jobs, &mut disk, commands.as_slice(), &mut tools)?;
    let all = Events {
        began: CALLS,
        ended: CALLS,
        lost: 0,
    };
    Ok(ran.replied(replies.as_slice()) && Events::of(tools.log()) == all)
}

#[test]
fn a_project_is_built_alike_however_many_run(rt: HostRuntime) -> Result<(), Fail> {
    for jobs in ["1", "2", "3", "5", "64"] {
        for places in [[0, 0, 0, 0], [2, 1, 0, 2], [7, 5, 3, 1], [1, 4, 1, 4]] {
            assert!(rt; builds(rt.alloc(), jobs, &places)?, "{jobs}");
        }
    }
    Ok(())
}

// Two tools at once, of which the second is not started.
fn refuses_the_second(alloc: Global) -> Result<bool, Memory> {
    let mut tools = FailTools::new(TableTools::toy(alloc, Seq::new(alloc)), only(alloc, 2)?);
    let mut disk = disk_of(alloc, b"")?;
    let mut commands = TWO.to_vec(alloc)?;
    commands.extend_from_slice(b"kept\nask m.sm:exe\nkept\n")?;
    let ran = ran_with(alloc, "2", &mut disk, commands.as_slice(), &mut tools)?;
    let events = Events::of(tools.inner().log());
    Ok(
        ran.replied(
            b"put m.sm 8\nput a.c 4\nput b.c 4\nrefused tool start\nkept 1\nobject ok simple 8\nx=1\ny=2\n\nmessages 0\nkept 5\n",
        ) && events.began == 5
            && tools.running() == 0,
    )
}

#[test]
fn what_runs_is_kept_where_the_second_start_fails(rt: HostRuntime) -> Result<(), Fail> {
    assert!(rt; refuses_the_second(rt.alloc())?);
    Ok(())
}
