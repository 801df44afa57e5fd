// Units that are scanned, compiled and linked: runs in which several tools are in flight, and what their log tells.
ghost use Rattle.std.specs.Prelude.{◌≡◌, []};

use crate::stored::{Text, status_at};
use object_values::{Memory, Seq};
use odin_outside::{Disk, Spawner, ToolEvent};
use std::alloc::Global;
use test_support::{C_UNITS, sink};

/// Five units over two headers are put.
pub(super) const PUTS: Text =
    b"put h1.h 5\nw1=1\nput h2.h 5\nw2=1\nput a.c 20\ninclude h1.h\nva=100\nput b.c 20\ninclude h2.h\nvb=100\nput c.c 20\ninclude h1.h\nvc=100\nput d.c 20\ninclude h2.h\nvd=100\nput e.c 20\ninclude h1.h\nve=100\nput m.sm 20\na.c\nb.c\nc.c\nd.c\ne.c\n";

/// And this is replied.
pub(super) const PUT_REPLIES: Text =
    b"put h1.h 5\nput h2.h 5\nput a.c 20\nput b.c 20\nput c.c 20\nput d.c 20\nput e.c 20\nput m.sm 20\n";

/// Their program is asked for.
pub(super) const ASK: Text = b"ask m.sm:exe\n";

/// The program.
pub(super) const OBJECT: Text =
    b"object ok simple 60\nva=100\nw1=1\nvb=100\nw2=1\nvc=100\nw1=1\nvd=100\nw2=1\nve=100\nw1=1\n\nmessages 0\n";

/// How many tools it takes: each unit and each header is scanned, each unit is compiled, and all are linked.
pub(super) const CALLS: usize = 13;

/// The numbers of an order, from these.
pub(super) fn order_of(alloc: Global, places: &[u32]) -> Result<Seq<u32>, Memory> {
    let mut order = Seq::new(alloc);
    for place in places {
        order.push(*place)?;
    }
    Ok(order)
}

/// The status and the output of a run.
#[derive(Drop)]
pub(super) struct Given {
    pub(super) status: u8,
    output: Vec<u8>,
}

impl Given {
    /// Whether the input was taken to its end, with these replies.
    pub(super) fn replied(&self, replies: &[u8]) -> bool {
        self.status == 0 && self.output.as_slice() == replies
    }
}

/// A run of these commands over the graph of units.
pub(super) fn ran_with<D: Disk, S: Spawner>(
    alloc: Global,
    jobs: &str,
    disk: &mut D,
    commands: &[u8],
    tools: &mut S,
) -> Result<Given, Memory>
    requires { (S.told tools.old).running ≡ [] }
{
    let mut output = sink(alloc, 20_000, 5000)?;
    let status = status_at(alloc, jobs, &[C_UNITS], disk, commands, &mut output, tools)?;
    Ok(Given {
        status,
        output: output.taken().to_vec(alloc)?,
    })
}

/// How many starts, ends and lost ends a log has.
#[derive(Clone, Copy, PartialEq, Eq)]
pub(super) struct Events {
    pub(super) began: usize,
    pub(super) ended: usize,
    pub(super) lost: usize,
}

impl Events {
    pub(super) fn of(log: &[ToolEvent]) -> Self {
        let began = log
            .iter()
            .filter(|event| matches!(event, ToolEvent::Began(_, _)))
            .count();
        let ended = log
            .iter()
            .filter(|event| matches!(event, ToolEvent::Ended(_)))
            .count();
        let lost = log
            .iter()
            .filter(|event| matches!(event, ToolEvent::Lost(_)))
            .count();
        Events { began, ended, lost }
    }
}
