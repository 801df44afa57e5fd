// Each call of each object of the outside fails in turn, with one tool at a time and with three.
use super::runs::{Call, NONE, Object, Ran, disk_of, run_failing, run_over};
use super::sessions::{
    STARTS, Step, THERE_AND_BACK, TWO_UNITS, behind, commands_of, front, goes_on, replies_of,
};
use object_values::Memory;
use std::alloc::Global;
use std::test::Fail;

// A session, and how many tools may run at once.
type Row = (&'static [Step], &'static str, u64);

const ROWS: &[Row] = &[
    (THERE_AND_BACK, "3", 3),
    (TWO_UNITS, "1", 1),
    (TWO_UNITS, "3", 3),
];

// How many steps the output has the whole replies of. The output of one that fails also has a part of the next reply; `None` where it has another one.
fn answered(
    alloc: Global,
    steps: &[Step],
    object: Object,
    output: &[u8],
) -> Result<Option<usize>, Memory> {
    for count in 0..=steps.len() {
        let whole = replies_of(alloc, front(steps, count))?;
        let next = replies_of(alloc, front(steps, count.saturating_add(1)))?;
        let is_part = object == Object::Sink
            && output.len() < next.len()
            && output.starts_with(whole.as_slice())
            && next.as_slice().starts_with(output);
        if output == whole.as_slice() || is_part {
            return Ok(Some(count));
        }
    }
    Ok(None)
}

// Whether a run in which a call failed has stopped with this status, and can be gone on with. What ran then is started again, and nothing else.
fn stopped_well(
    alloc: Global,
    row: Row,
    object: Object,
    status: u8,
    left: &(Ran, Vec<u8>),
) -> Result<bool, Memory> {
    let (steps, jobs, limit) = row;
    let (first, image) = left;
    let Some(done) = answered(alloc, steps, object, first.output.as_slice())? else {
        return Ok(false);
    };
    let Some(starts) = goes_on(alloc, steps, done, jobs, image.as_slice())? else {
        return Ok(false);
    };
    let all = first.starts.saturating_add(starts);
    Ok(first.status == status && STARTS <= all && all <= STARTS.saturating_add(limit))
}

// The first call of an object where that is not so. After the last one a run goes well.
fn first_wrong(alloc: Global, row: Row, object: Object, status: u8) -> Result<Option<u32>, Memory> {
    let commands = commands_of(alloc, row.0)?;
    let replies = replies_of(alloc, row.0)?;
    for number in 1..500u32 {
        let left = run_failing(alloc, row.1, Call { object, number }, commands.as_slice())?;
        if left.0.replied(replies.as_slice()) {
            return Ok((number == 1).then_some(number));
        }
        if !stopped_well(alloc, row, object, status, &left)? {
            return Ok(Some(number));
        }
    }
    Ok(Some(500))
}

#[test]
fn a_call_that_fails_leaves_a_session_to_go_on_with(rt: HostRuntime) -> Result<(), Fail> {
    for row in ROWS {
        for (object, status) in [
            (Object::Source, 6),
            (Object::Sink, 5),
            (Object::Tree, 6),
            (Object::Disk, 3),
        ] {
            assert_eq!(rt; first_wrong(rt.alloc(), *row, object, status)?, None);
        }
    }
    Ok(())
}

// Whether the output has all replies, but for one ask that is refused.
fn refuses_one(alloc: Global, steps: &[Step], output: &[u8]) -> Result<bool, Memory> {
    for place in 0..steps.len() {
        let mut text = replies_of(alloc, front(steps, place))?;
        text.extend_from_slice(b"refused tool start\n")?;
        let rest = replies_of(alloc, behind(steps, place.saturating_add(1)))?;
        text.extend_from_slice(rest.as_slice())?;
        if text.as_slice() == output {
            return Ok(true);
        }
    }
    Ok(false)
}

// Whether a run in which a start or an end failed has refused one ask, and the same commands go well over its file. What was lost is started again, and
// nothing else.
fn refused_well(alloc: Global, row: Row, left: &(Ran, Vec<u8>)) -> Result<bool, Memory> {
    let (steps, jobs, _) = row;
    let (first, image) = left;
    let commands = commands_of(alloc, steps)?;
    let replies = replies_of(alloc, steps)?;
    let mut disk = disk_of(alloc, image.as_slice())?;
    let next = run_over(alloc, jobs, NONE, &mut disk, commands.as_slice())?;
    let starts = first.starts.saturating_add(next.starts);
    let again = starts == STARTS || starts == STARTS.saturating_add(1);
    let refused = refuses_one(alloc, steps, first.output.as_slice())?;
    Ok(first.status == 0 && refused && next.replied(replies.as_slice()) && again)
}

// The first start or end where that is not so. After the last one a run goes well; there are two for each tool.
fn first_unrefused(alloc: Global, row: Row) -> Result<Option<u32>, Memory> {
    let commands = commands_of(alloc, row.0)?;
    let replies = replies_of(alloc, row.0)?;
    let object = Object::Tools;
    for number in 1..11u32 {
        let left = run_failing(alloc, row.1, Call { object, number }, commands.as_slice())?;
        if !refused_well(alloc, row, &left)? {
            return Ok(Some(number));
        }
    }
    let number = 11;
    let (ran, _) = run_failing(alloc, row.1, Call { object, number }, commands.as_slice())?;
    Ok((!ran.replied(replies.as_slice())).then_some(number))
}

#[test]
fn a_start_or_end_that_fails_refuses_one_ask(rt: HostRuntime) -> Result<(), Fail> {
    for row in ROWS {
        assert_eq!(rt; first_unrefused(rt.alloc(), *row)?, None);
    }
    Ok(())
}
