// The parameters of calls: those that the tool uses, and no others.
use super::graphs::PARAMS;
use super::runs::gives;
use object_values::{Bytes, Memory, Seq};
use odin_fakes::TableTools;
use odin_outside::{Job, ToolEvent};
use std::alloc::Global;
use std::test::Fail;

type Text = &'static [u8];

// A node, the file `call` of its call, and the replies.
const ROWS: &[(Text, Text, Text)] = &[
    (
        b"a.c+debug:o",
        b"odin 1\ntool cc 1\nparam debug \npart 0 i1 a.c\nout out.o\n",
        DEBUGGED,
    ),
    (
        b"a.c:o",
        b"odin 1\ntool cc 1\npart 0 i1 a.c\nout out.o\n",
        PLAIN,
    ),
    (
        b"a.c+opt:o",
        b"odin 1\ntool cc 1\npart 0 i1 a.c\nout out.o\n",
        PLAIN,
    ),
    // two values of one name, in the order in which they are written
    (
        b"a.c+opt=1+debug=2+debug=1:o",
        b"odin 1\ntool cc 1\nparam debug 2\nparam debug 1\npart 0 i1 a.c\nout out.o\n",
        DEBUGGED,
    ),
    // a name that begins with that of a used one
    (
        b"a.c+debug2+debug=1:o",
        b"odin 1\ntool cc 1\nparam debug 1\npart 0 i1 a.c\nout out.o\n",
        DEBUGGED,
    ),
];

const PLAIN: Text = b"put a.c 4\nobject ok simple 4\nx=1\n\nmessages 0\n";

const DEBUGGED: Text = b"put a.c 4\nobject ok simple 10\ndebug\nx=1\n\nmessages 0\n";

// Whether the job has a file `call` with these bytes.
fn has_call(job: &Job, body: &[u8]) -> bool {
    job.files.as_slice().iter().any(|file| file.name.as_slice() == b"call".as_slice()
        && file.body.as_slice() == body)
}

// Whether one job was started, with this file `call`.
fn has_started(log: &[ToolEvent], call: &[u8]) -> bool {
    match log {
        [ToolEvent::Began(_, job), ToolEvent::Ended(_)] => has_call(job, call),
        _ => false,
    }
}

// Whether the node makes this call, and is replied so.
fn goes(alloc: Global, node: &[u8], call: &[u8], want: &[u8]) -> Result<bool, Memory> {
    let mut tools = TableTools::toy(alloc, Seq::new(alloc));
    let mut input = Bytes::from_slice(alloc, b"put a.c 4\nx=1\nask ")?;
    input.extend_from_slice(node)?;
    let as_wanted = gives(alloc, PARAMS, "1", input.as_slice(), want, &mut tools)?;
    Ok(as_wanted && has_started(tools.log(), call))
}

#[test]
fn a_call_has_the_parameters_that_its_tool_uses(rt: HostRuntime) -> Result<(), Fail> {
    for (node, call, want) in ROWS {
        assert!(rt; goes(rt.alloc(), node, call, want)?);
    }
    Ok(())
}
