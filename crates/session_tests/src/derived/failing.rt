// Sessions in which each start and each end of a tool fails in turn: one ask is refused, and the next one is answered.
use super::graphs::{C_UNITS, KITS, Pieces};
use super::runs::gives;
use object_values::{Bytes, Memory, Seq};
use odin_fakes::{FailTools, TableTools};
use std::alloc::Global;
use std::test::Fail;

// A part of an input, and its replies; of an ask also how many starts and ends it takes, where those before it went well.
enum Part {
    Edits(&'static [u8], &'static [u8]),
    Ask(&'static [u8], &'static [u8], u32),
}

const EDITED: &[Part] = &[
    Part::Edits(
        b"put m.sm 4\na.c\nput a.c 4\nx=1\n",
        b"put m.sm 4\nput a.c 4\n",
    ),
    Part::Ask(
        b"ask m.sm:exe\n",
        b"object ok simple 4\nx=1\n\nmessages 0\n",
        6,
    ),
    // what is linked stays as it was
    Part::Edits(b"put a.c 11\nx=1\n//!old\n", b"put a.c 11\n"),
    Part::Ask(
        b"ask m.sm:exe\n",
        b"object warning simple 4\nx=1\n\nmessages 1\nwarning a.c:o old\n",
        4,
    ),
];

const PACKED: &[Part] = &[
    Part::Edits(
        b"put m.sm 4\na.c\nput a.c 4\nx=1\nput lic.h 2\nL\n",
        b"put m.sm 4\nput a.c 4\nput lic.h 2\n",
    ),
    Part::Ask(
        b"ask m.sm:kit\n",
        b"object ok compound 2\nprog 4\nx=1\n\nsrc 4\na.c\n\nmessages 0\n",
        6,
    ),
    Part::Ask(
        b"ask m.sm:kit%src\n",
        b"object ok simple 4\na.c\n\nmessages 0\n",
        0,
    ),
    Part::Ask(
        b"ask a.c:txt\n",
        b"object ok simple 10\nx=1\nx=1\nL\n\nmessages 0\n",
        2,
    ),
];

// The input, and the replies where the start or end of this number, from 1, fails, and its ask is refused.
fn written(alloc: Global, parts: &[Part], number: u32) -> Result<(Bytes, Bytes), Memory> {
    let mut input = Bytes::new(alloc);
    let mut replies = Bytes::new(alloc);
    let mut before: u32 = 0;
    for part in parts {
        match part {
            Part::Edits(text, reply) => {
                input.extend_from_slice(text)?;
                replies.extend_from_slice(reply)?;
            }
            Part::Ask(text, reply, tries) => {
                let last = before.saturating_add(*tries);
                input.extend_from_slice(text)?;
                replies.extend_from_slice(if before < number && number <= last {
                    b"refused tool start\n".as_slice()
                } else {
                    reply
                })?;
                before = last;
            }
        }
    }
    Ok((input, replies))
}

// Whether the session is right where this start or end fails, counted from 1.
fn is_right(alloc: Global, graph: Pieces, parts: &[Part], number: u32) -> Result<bool, Memory> {
    let mut fails = Seq::new(alloc);
    fails.push(number)?;
    let mut tools = FailTools::new(TableTools::toy(alloc, Seq::new(alloc)), fails);
    let (input, want) = written(alloc, parts, number)?;
    gives(
        alloc,
        graph,
        "1",
        input.as_slice(),
        want.as_slice(),
        &mut tools,
    )
}

#[test]
fn refuses_one_ask_for_each_fault(rt: HostRuntime) -> Result<(), Fail> {
    for number in 1..20u32 {
        assert!(rt; is_right(rt.alloc(), C_UNITS, EDITED, number)?);
        assert!(rt; is_right(rt.alloc(), KITS, PACKED, number)?);
    }
    Ok(())
}
