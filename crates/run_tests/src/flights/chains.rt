// A chain that is found while tools run: nothing more is started, and what runs is drained and kept.
use super::project::{Events, order_of};
use crate::stored::{Text, disk_of, status_at};
use object_values::{Memory, Seq};
use odin_fakes::{FailTools, TableTools};
use odin_outside::Spawner;
use std::alloc::Global;
use std::test::Fail;
use test_support::sink;

// Texts that are made, and joined of the texts that they name: a text that names what is joined of itself is circular once it is made.
const MADE: &[&[u8]] = &[
    b"type r simple;\ntype t simple;\ntype s simple;\ntype l list of t;\ntype u simple is t;\nsuffix .r r;\nsuffix .t t;\nread rr from r to l;\ntool mk 1 from t to s run \"ld\";\nread rd from s to l;\ntool join 1 from l to u run \"ld\";\n",
];

// The first of two texts names itself.
const PUTS: Text = b"put x.t 6\nx.t:u\nput y.t 0\nput m.r 12\nx.t:u\ny.t:u\nask m.r:u\nkept\n";

const CIRCLE: Text =
    b"put x.t 6\nput y.t 0\nput m.r 12\nrefused circular 3\nm.r:l:u\nx.t:s:l:u\nx.t:s:l:u\n";

// The starts and ends that fail, how many calls are kept, and what the tools did.
struct Row {
    jobs: &'static str,
    fails: &'static [u32],
    kept: &'static [u8],
    events: Events,
}

const ROWS: [Row; 4] = [
    // one after another: what was called for before the chain was there is run all the same
    Row {
        jobs: "1",
        fails: &[],
        kept: b"kept 2\n",
        events: Events {
            began: 2,
            ended: 2,
            lost: 0,
        },
    },
    Row {
        jobs: "2",
        fails: &[],
        kept: b"kept 2\n",
        events: Events {
            began: 2,
            ended: 2,
            lost: 0,
        },
    },
    // the end of the other tool is lost while it is drained: the chain was found first
    Row {
        jobs: "2",
        fails: &[4],
        kept: b"kept 1\n",
        events: Events {
            began: 2,
            ended: 1,
            lost: 1,
        },
    },
    Row {
        jobs: "64",
        fails: &[4],
        kept: b"kept 1\n",
        events: Events {
            began: 2,
            ended: 1,
            lost: 1,
        },
    },
];

fn goes(alloc: Global, row: &Row) -> Result<bool, Memory> {
    let mut tools = FailTools::new(
        TableTools::toy(alloc, Seq::new(alloc)),
        order_of(alloc, row.fails)?,
    );
    let mut disk = disk_of(alloc, b"")?;
    let mut output = sink(alloc, 20_000, 5000)?;
    let status = status_at(
        alloc,
        row.jobs,
        MADE,
        &mut disk,
        PUTS,
        &mut output,
        &mut tools,
    )?;
    let mut replies = CIRCLE.to_vec(alloc)?;
    replies.extend_from_slice(row.kept)?;
    Ok(
        status == 0
            && output.taken() == replies.as_slice()
            && Events::of(tools.inner().log()) == row.events
            && tools.running() == 0,
    )
}

#[test]
fn a_chain_that_is_found_while_tools_run_drains_them(rt: HostRuntime) -> Result<(), Fail> {
    for row in &ROWS {
        assert!(rt; goes(rt.alloc(), row)?, "{}", row.jobs);
    }
    Ok(())
}
