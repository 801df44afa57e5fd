// Worked rows of sessions over a store: each reply, and the jobs that are started for it.
use super::stored::{
    Graph, JOBS, NONE, Starts, Step, Text, commands_of, disk_of, front, replies_of, run_at, run_on,
    starts_of,
};
use object_values::{Bytes, Memory};
use odin_fakes::MemDisk;
use std::alloc::Global;
use std::test::Fail;
use test_support::{C_UNITS, KITS};

// After the graph of units: what is linked is a unit again.
const BACK: Text = b"tool back 1 from exe to c run \"ld\";\n";

// After any graph: a comment, which declares nothing.
const COMMENT: Text = b"# nothing else\n";

// A session over a graph.
struct Row {
    name: &'static str,
    graph: Graph,
    steps: &'static [Step],
}

const COMPILED: Starts = Starts {
    scan: 1,
    cc: 1,
    ld: 0,
};

const LINKED: Starts = Starts {
    scan: 1,
    cc: 1,
    ld: 1,
};

/// A unit is put.
pub const PUT: Step = Step {
    commands: b"put a.c 4\nx=1\n",
    replies: b"put a.c 4\n",
    starts: NONE,
};

const OBJECT: Text = b"object ok simple 4\nx=1\n\nmessages 0\n";

const COMPILE_TWICE: &[Step] = &[
    PUT,
    Step {
        commands: b"ask a.c:o\n",
        replies: OBJECT,
        starts: COMPILED,
    },
    Step {
        commands: b"ask a.c:o\n",
        replies: OBJECT,
        starts: NONE,
    },
    // the parameter changes what is compiled, and not what is scanned
    Step {
        commands: b"ask a.c +debug:o\n",
        replies: b"object ok simple 10\ndebug\nx=1\n\nmessages 0\n",
        starts: Starts {
            scan: 0,
            cc: 1,
            ld: 0,
        },
    },
];

const NO_PATH: &[Step] = &[
    PUT,
    Step {
        commands: b"ask a.c:exe\n",
        replies: b"refused path 1\n",
        starts: NONE,
    },
];

const INCLUDE_LOOP: &[Step] = &[
    Step {
        commands: b"put a.c 16\ninclude a.h\nx=1\nput a.h 16\ninclude b.h\ny=2\nput b.h 16\ninclude a.h\nz=3\n",
        replies: b"put a.c 16\nput a.h 16\nput b.h 16\n",
        starts: NONE,
    },
    Step {
        commands: b"ask a.c:o\n",
        replies: b"object ok simple 12\nx=1\ny=2\nz=3\n\nmessages 0\n",
        starts: Starts {
            scan: 3,
            cc: 1,
            ld: 0,
        },
    },
];

const ABSENT_HEADER_APPEARS: &[Step] = &[
    Step {
        commands: b"put a.c 16\ninclude x.h\nx=1\n",
        replies: b"put a.c 16\n",
        starts: NONE,
    },
    Step {
        commands: b"ask a.c:o\n",
        replies: OBJECT,
        starts: COMPILED,
    },
    Step {
        commands: b"put x.h 4\nw=5\n",
        replies: b"put x.h 4\n",
        starts: NONE,
    },
    Step {
        commands: b"ask a.c:o\n",
        replies: b"object ok simple 8\nx=1\nw=5\n\nmessages 0\n",
        starts: COMPILED,
    },
];

const LIST: Step = Step {
    commands: b"put m.sm 4\na.c\n",
    replies: b"put m.sm 4\n",
    starts: NONE,
};

/// The reply of a program whose unit has a warning.
pub const WARNING: Text = b"object warning simple 4\nx=1\n\nmessages 1\nwarning a.c:o old\n";

/// A program is linked, its unit gets a warning, and then its old text back.
pub const WARNING_AND_BACK: &[Step] = &[
    LIST,
    PUT,
    Step {
        commands: b"ask m.sm:exe\n",
        replies: OBJECT,
        starts: LINKED,
    },
    Step {
        commands: b"put a.c 11\nx=1\n//!old\n",
        replies: b"put a.c 11\n",
        starts: NONE,
    },
    // what is linked stays as it was
    Step {
        commands: b"ask m.sm:exe\n",
        replies: WARNING,
        starts: COMPILED,
    },
    PUT,
    Step {
        commands: b"ask m.sm:exe\n",
        replies: OBJECT,
        starts: NONE,
    },
    Step {
        commands: b"kept\n",
        replies: b"kept 5\n",
        starts: NONE,
    },
];

const BAD_REFERENCE: &[Step] = &[
    Step {
        commands: b"put m.sm 6\na.c\n?\n",
        replies: b"put m.sm 6\n",
        starts: NONE,
    },
    Step {
        commands: b"ask m.sm:exe\n",
        replies: b"object abort none 0\nmessages 1\nabort m.sm:units line 2: bad reference\n",
        starts: NONE,
    },
];

const CIRCULAR: &[Step] = &[
    Step {
        commands: b"put m.sm 9\nm.sm:exe\n",
        replies: b"put m.sm 9\n",
        starts: NONE,
    },
    Step {
        commands: b"ask m.sm:exe\n",
        replies: b"refused circular 4\nm.sm:units:objs:exe\nm.sm:units:objs:exe:c:o\nm.sm:units:objs:exe:c\nm.sm:units:objs:exe\n",
        starts: NONE,
    },
];

const LISTS_AND_PICKS: &[Step] = &[
    Step {
        commands: b"put m.sm 8\na.c\nb.c\nput a.c 4\nx=1\nput b.c 4\ny=2\n",
        replies: b"put m.sm 8\nput a.c 4\nput b.c 4\n",
        starts: NONE,
    },
    Step {
        commands: b"ask m.sm:objs\n",
        replies: b"object ok list 2\na.c:o\nb.c:o\nmessages 0\n",
        starts: NONE,
    },
    Step {
        commands: b"ask m.sm:objs%2\n",
        replies: b"object ok simple 4\ny=2\n\nmessages 0\n",
        starts: COMPILED,
    },
    Step {
        commands: b"ask m.sm:objs%9\n",
        replies: b"object abort none 0\nmessages 1\nabort m.sm:units:objs%9 no element 9\n",
        starts: NONE,
    },
    // the element that was asked for is kept
    Step {
        commands: b"ask m.sm:exe\n",
        replies: b"object ok simple 8\nx=1\ny=2\n\nmessages 0\n",
        starts: LINKED,
    },
];

const ENDS_OF_A_TOOL: &[Step] = &[
    Step {
        commands: b"put a.c 8\n!signal\nask a.c:o\n",
        replies: b"put a.c 8\nobject abort none 0\nmessages 1\nabort a.c:o tool cc ended by a signal\n",
        starts: COMPILED,
    },
    Step {
        commands: b"put a.c 12\n!exit 1\nx=1\nask a.c:o\n",
        replies: b"put a.c 12\nobject error simple 4\nx=1\n\nmessages 0\n",
        starts: COMPILED,
    },
    Step {
        commands: b"put a.c 6\n!none\nask a.c:o\n",
        replies: b"put a.c 6\nobject abort none 0\nmessages 1\nabort a.c:o no output o\n",
        starts: COMPILED,
    },
];

const KIT: &[Step] = &[
    LIST,
    PUT,
    Step {
        commands: b"put lic.h 2\nL\n",
        replies: b"put lic.h 2\n",
        starts: NONE,
    },
    Step {
        commands: b"ask m.sm:kit\n",
        replies: b"object ok compound 2\nprog 4\nx=1\n\nsrc 4\na.c\n\nmessages 0\n",
        starts: LINKED,
    },
    Step {
        commands: b"ask m.sm:kit%src\n",
        replies: b"object ok simple 4\na.c\n\nmessages 0\n",
        starts: NONE,
    },
    // what is scanned and compiled is kept
    Step {
        commands: b"ask a.c:txt\n",
        replies: b"object ok simple 10\nx=1\nx=1\nL\n\nmessages 0\n",
        starts: Starts {
            scan: 0,
            cc: 0,
            ld: 1,
        },
    },
];

const ROWS: &[Row] = &[
    Row {
        name: "compile twice, and with a parameter",
        graph: &[C_UNITS],
        steps: COMPILE_TWICE,
    },
    Row {
        name: "no path",
        graph: &[C_UNITS],
        steps: NO_PATH,
    },
    Row {
        name: "include loop",
        graph: &[C_UNITS],
        steps: INCLUDE_LOOP,
    },
    Row {
        name: "absent header appears",
        graph: &[C_UNITS],
        steps: ABSENT_HEADER_APPEARS,
    },
    Row {
        name: "warning after an edit, and back to what is kept",
        graph: &[C_UNITS],
        steps: WARNING_AND_BACK,
    },
    Row {
        name: "bad reference",
        graph: &[C_UNITS],
        steps: BAD_REFERENCE,
    },
    Row {
        name: "circular",
        graph: &[C_UNITS, BACK],
        steps: CIRCULAR,
    },
    Row {
        name: "lists and picks",
        graph: &[C_UNITS],
        steps: LISTS_AND_PICKS,
    },
    Row {
        name: "ends of a tool",
        graph: &[C_UNITS],
        steps: ENDS_OF_A_TOOL,
    },
    Row {
        name: "kits",
        graph: &[C_UNITS, KITS],
        steps: KIT,
    },
];

// The file that a session leaves, where it goes so in one run over no file.
fn left_by(alloc: Global, graph: &[&[u8]], steps: &[Step]) -> Result<Option<MemDisk>, Memory> {
    let mut disk = disk_of(alloc, b"")?;
    let commands = commands_of(alloc, steps)?;
    let replies = replies_of(alloc, steps)?;
    let ran = run_on(alloc, graph, &mut disk, commands.as_slice())?;
    let went = ran.went(replies.as_slice(), starts_of(steps));
    Ok(went.then_some(disk))
}

// Whether each of the steps goes so in one run. A step starts what the session up to it does beside the one before.
fn goes_in_one_run(alloc: Global, row: &Row) -> Result<bool, Memory> {
    for count in 0..=row.steps.len() {
        if left_by(alloc, row.graph, front(row.steps, count))?.is_none() {
            return Ok(false);
        }
    }
    Ok(true)
}

#[test]
fn each_step_goes_so_in_one_run(rt: HostRuntime) -> Result<(), Fail> {
    for row in ROWS {
        assert!(rt; goes_in_one_run(rt.alloc(), row)?, "{}", row.name);
    }
    Ok(())
}

// Whether each of the steps goes so in a run of its own over the file that the one before left, with so many tools at once.
fn goes_run_by_run(alloc: Global, row: &Row, jobs: &str) -> Result<bool, Memory> {
    let mut image = Bytes::new(alloc);
    for step in row.steps {
        let mut disk = disk_of(alloc, image.as_slice())?;
        let ran = run_at(alloc, jobs, row.graph, &mut disk, step.commands)?;
        if !ran.went(step.replies, step.starts) {
            return Ok(false);
        }
        image = Bytes::from_slice(alloc, disk.image())?;
    }
    Ok(true)
}

#[test]
fn each_step_goes_so_in_a_run_of_its_own(rt: HostRuntime) -> Result<(), Fail> {
    for row in ROWS {
        for jobs in JOBS {
            assert!(rt; goes_run_by_run(rt.alloc(), row, jobs)?, "{}", row.name);
        }
    }
    Ok(())
}

// How many steps there are up to the warning.
const WARNED: usize = 5;

// Whether the warning comes again where the graph file has one comment more.
fn goes_with_a_comment(alloc: Global) -> Result<bool, Memory> {
    let Some(left) = left_by(alloc, &[C_UNITS], front(WARNING_AND_BACK, WARNED))? else {
        return Ok(false);
    };
    let mut disk = disk_of(alloc, left.image())?;
    let ran = run_on(alloc, &[C_UNITS, COMMENT], &mut disk, b"ask m.sm:exe\n")?;
    Ok(ran.went(WARNING, NONE) && disk.image() != left.image())
}

#[test]
fn a_store_reopened_with_a_comment_starts_nothing(rt: HostRuntime) -> Result<(), Fail> {
    assert!(rt; goes_with_a_comment(rt.alloc())?);
    Ok(())
}

// Whether nothing is kept of a put that is cut short.
fn is_not_put(alloc: Global) -> Result<bool, Memory> {
    let mut disk = disk_of(alloc, b"")?;
    let cut = run_on(alloc, &[C_UNITS], &mut disk, b"put a.c 9\nx=1")?;
    let mut left = disk_of(alloc, disk.image())?;
    let again = run_on(alloc, &[C_UNITS], &mut left, b"sources\n")?;
    Ok(cut.status == 1 && cut.output.is_empty() && again.went(b"sources 0\n", NONE))
}

#[test]
fn a_put_that_is_cut_short_is_not_kept(rt: HostRuntime) -> Result<(), Fail> {
    assert!(rt; is_not_put(rt.alloc())?);
    Ok(())
}
