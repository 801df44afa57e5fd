// The worked rows of graphs and tools, over objects in memory.
ghost use Rattle.std.specs.Prelude.{◌≡◌, ◌<◌, []};

use super::runs::{JOBS, outcome_over, status_with, with_taken};
use object_values::{Memory, Seq};
use odin_fakes::{FailSink, FailTools, FailTree, TableTools};
use odin_outside::Spawner;
use std::alloc::Global;
use std::test::Fail;
use test_support::{C_UNITS, CC_ONLY as GRAPH, only, sink, source, tree_of};

const TWO_WAYS: &[u8] =
    b"type a simple;\ntype b simple;\ntype c simple;\ntype d simple;\nsuffix .a a;\ntool p 1 from a to b run \"ld\";\ntool q 1 from a to c run \"ld\";\ntool r 1 from c to d run \"ld\";\ntool s 1 from b to d run \"ld\";\n";

const THREE_WAYS: &[u8] =
    b"type a simple;\ntype b simple;\ntype c simple;\ntype d simple;\nsuffix .a a;\ntool p 1 from a to b run \"ld\";\ntool q 1 from a to c run \"ld\";\ntool r 1 from c to d run \"ld\";\ntool s 1 from b to d run \"ld\";\ntool t 1 from a to d run \"ld\";\n";

const WITH_DEBUG: &[u8] =
    b"type c simple;\ntype o simple;\nsuffix .c c;\nparam debug;\ntool cc 1 from c to o run \"cc\" uses debug;\n";

// A graph, an input, the status, the output, and how many starts and ends of tools there were.
type Row = (&'static [u8], &'static [u8], u8, &'static [u8], usize);

const ROWS: [Row; 16] = [
    (
        GRAPH,
        b"put a.c 4\nx=1\nask a.c:o\nask a.c:o\n",
        0,
        b"put a.c 4\nobject ok simple 4\nx=1\n\nmessages 0\nobject ok simple 4\nx=1\n\nmessages 0\n",
        2,
    ),
    (
        GRAPH,
        b"put a.c 8\n!signal\nask a.c:o\nput a.c 12\n!exit 1\nx=1\nask a.c:o\nput a.c 6\n!none\nask a.c:o\n",
        0,
        b"put a.c 8\nobject abort none 0\nmessages 1\nabort a.c:o tool cc ended by a signal\nput a.c 12\nobject error simple 4\nx=1\n\nmessages 0\nput a.c 6\nobject abort none 0\nmessages 1\nabort a.c:o no output o\n",
        6,
    ),
    (
        GRAPH,
        b"put a.c 4\nx=1\nask a.c:c\nask b.c:o\n",
        0,
        b"put a.c 4\nobject ok simple 4\nx=1\n\nmessages 0\nobject abort none 0\nmessages 1\nabort b.c no source b.c\n",
        0,
    ),
    (
        GRAPH,
        b"put a.c 7\n//!a\tb\nask a.c:o\nput a.c 8\n!exit 9\nask a.c:o\n",
        0,
        b"put a.c 7\nobject warning simple 0\n\nmessages 1\nwarning a.c:o a\\x09b\nput a.c 8\nobject abort none 0\nmessages 1\nabort a.c:o tool cc ended with status 9\n",
        4,
    ),
    (
        GRAPH,
        b"ask a.c:zz\nask z:o\nask a.c:text\nask a.c:\nask a.c:o:o\nask a.c:1\nask :o\nask a.c :o\n",
        0,
        b"refused type zz\nrefused path 1\nrefused path 1\nrefused expression 5\nobject abort none 0\nmessages 1\nabort a.c no source a.c\nrefused expression 5\nrefused expression 1\nobject abort none 0\nmessages 1\nabort a.c no source a.c\n",
        0,
    ),
    (
        GRAPH,
        b"plan a.c:o\nplan a.c\nplan a.c:zz\nplan z:o\nplan a.c:\nplan\n",
        0,
        b"plan 1\ncc\nplan 0\nrefused type zz\nrefused path 1\nrefused expression 5\nrefused command\n",
        0,
    ),
    (TWO_WAYS, b"plan z.a:d\n", 0, b"plan 2\np\ns\n", 0),
    (THREE_WAYS, b"plan z.a:d\n", 0, b"plan 1\nt\n", 0),
    (
        TWO_WAYS,
        b"put z.a 2\n1\nask z.a:d",
        0,
        b"put z.a 2\nobject ok simple 2\n1\n\nmessages 0\n",
        4,
    ),
    (
        b"type c simple\ntype d simple;",
        b"ask a\n",
        2,
        b"graph: line 2 column 1: syntax\n",
        0,
    ),
    (b"suffix .c c;", b"", 2, b"graph: line 1: unknown type\n", 0),
    (
        b"type c simple;\ntype d simple is c, c, e; type c simple;",
        b"",
        2,
        b"graph: line 2: unknown type\n",
        0,
    ),
    (
        C_UNITS,
        b"put m.sm 4\na.c\nput a.c 4\nx=1\nask m.sm:exe\n",
        0,
        b"put m.sm 4\nput a.c 4\nobject ok simple 4\nx=1\n\nmessages 0\n",
        6,
    ),
    (
        b"param p;\ntype c simple;\nread rd from c to c;",
        b"",
        2,
        b"graph: line 3: wrong kind\n",
        0,
    ),
    (
        b"param p;\ntype l list of text;",
        b"ask a:l",
        0,
        b"refused path 1\n",
        0,
    ),
    (
        WITH_DEBUG,
        b"put a.c 4\nx=1\nask a.c:o\nask a.c +debug:o\n",
        0,
        b"put a.c 4\nobject ok simple 4\nx=1\n\nmessages 0\nobject ok simple 10\ndebug\nx=1\n\nmessages 0\n",
        4,
    ),
];

// The status and the output of a run over a graph and these tools.
fn outcome_in<S: Spawner>(
    alloc: Global,
    graph: &[u8],
    tools: &mut S,
    jobs: &str,
    text: &[u8],
    piece: usize,
) -> Result<(u8, Vec<u8>), Memory>
    requires piece { 0 < piece }
    requires idle { (S.told tools.old).running ≡ [] }
{
    let mut tree = tree_of(alloc, &[(b"g0", graph)])?;
    outcome_over(alloc, &mut tree, tools, jobs, text, piece)
}

// The same over the toy tools, and how many starts and ends there were.
fn outcome(
    alloc: Global,
    graph: &[u8],
    jobs: &str,
    text: &[u8],
    piece: usize,
) -> Result<(u8, Vec<u8>, usize), Memory>
    requires { 0 < piece }
{
    let mut tools = TableTools::toy(alloc, Seq::new(alloc));
    let (status, output) = outcome_in(alloc, graph, &mut tools, jobs, text, piece)?;
    Ok((status, output, tools.log().len()))
}

#[test]
fn answers_the_worked_rows(rt: HostRuntime) -> Result<(), Fail> {
    for (graph, input, end, want, events) in &ROWS {
        for jobs in JOBS {
            for piece in [1, 2, 7, 5000] {
                let (status, output, counted) = outcome(rt.alloc(), graph, jobs, input, piece)?;
                assert_eq!(rt; status, *end);
                assert!(rt; output.as_slice() == *want);
                assert_eq!(rt; counted, *events);
            }
        }
    }
    Ok(())
}

// Names of files with their bytes: the graph, a source, and one in a folder.
const FILES: [(&[u8], &[u8]); 3] = [(b"g0", GRAPH), (b"t.c", b"x=1\n"), (b"lib/b.c", b"")];

// A tree of the files whose read of this number fails.
fn failing_tree(alloc: Global, number: u32) -> Result<FailTree, Memory> {
    let fails = only(alloc, number)?;
    Ok(FailTree::new(tree_of(alloc, &FILES)?, fails))
}

const EDITS: &[u8] = b"put a.c 4\nx=1\ndrop a.c\ndrop a.c\ntake t.c\ntake z.c\ntake lib\nsources\n";

// The status and the output of edits, where this read of the tree fails.
fn taken(alloc: Global, number: u32, piece: usize) -> Result<(u8, Vec<u8>), Memory>
    requires { 0 < piece }
{
    let mut tree = failing_tree(alloc, number)?;
    let mut tools = TableTools::toy(alloc, Seq::new(alloc));
    outcome_over(alloc, &mut tree, &mut tools, "1", EDITS, piece)
}

#[test]
fn ends_or_refuses_where_the_tree_fails(rt: HostRuntime) -> Result<(), Fail> {
    let rows: [(u32, u8, &[u8]); 5] = [
        (1, 6, b""),
        (
            2,
            0,
            b"put a.c 4\ndropped a.c\nno source a.c\nrefused read\nno file z.c\nno file lib\nsources 0\n",
        ),
        (
            3,
            0,
            b"put a.c 4\ndropped a.c\nno source a.c\ntook t.c 4\nrefused read\nno file lib\nsources 1\nt.c 4\n",
        ),
        (
            4,
            0,
            b"put a.c 4\ndropped a.c\nno source a.c\ntook t.c 4\nno file z.c\nrefused read\nsources 1\nt.c 4\n",
        ),
        (
            5,
            0,
            b"put a.c 4\ndropped a.c\nno source a.c\ntook t.c 4\nno file z.c\nno file lib\nsources 1\nt.c 4\n",
        ),
    ];
    for (number, end, want) in rows {
        for piece in [1, 2, 7, 5000] {
            let (status, output) = taken(rt.alloc(), number, piece)?;
            assert_eq!(rt; status, end);
            assert!(rt; output.as_slice() == want);
        }
    }
    Ok(())
}

// The status and the output over a text of so many blanks in place of a graph.
fn blank_outcome(alloc: Global, count: usize) -> Result<(u8, Vec<u8>), Memory> {
    let text = vec![in alloc; b' '; count]?;
    let (status, output, _) = outcome(alloc, text.as_slice(), "1", b"ask a\n", 7)?;
    Ok((status, output))
}

#[test]
fn tells_a_long_graph(rt: HostRuntime) -> Result<(), Fail> {
    let absent: &[u8] = b"object abort none 0\nmessages 1\nabort a no source a\n";
    let long: &[u8] = b"graph: too long\n";
    for (count, end, want) in [(1_048_576, 0, absent), (1_048_577, 2, long)] {
        let (status, output) = blank_outcome(rt.alloc(), count)?;
        assert_eq!(rt; status, end);
        assert!(rt; output.as_slice() == want);
    }
    Ok(())
}

// The status and the output where the graph's file is missing and this write fails, in pieces of 7.
fn missing_graph(alloc: Global, number: u32) -> Result<(u8, Vec<u8>), Memory> {
    let fails = only(alloc, number)?;
    let mut output = FailSink::new(sink(alloc, 100, 7)?, fails);
    let mut input = source(alloc, b"ask a\n", 7)?;
    let status = status_with(alloc, &["odin", "h"], &mut input, &mut output)?;
    with_taken(alloc, status, output.inner().taken())
}

#[test]
fn tells_a_missing_graph(rt: HostRuntime) -> Result<(), Fail> {
    let line: &[u8] = b"graph: no file\n";
    // The number of the write that fails, the status, and how many bytes of the line are written.
    for (number, end, count) in [(1, 5, 0), (2, 5, 7), (3, 5, 14), (4, 2, 15)] {
        let (status, output) = missing_graph(rt.alloc(), number)?;
        assert_eq!(rt; status, end);
        assert!(rt; output.as_slice() == &line[..count]);
    }
    Ok(())
}

// The replies to a put and three asks, of which this one is refused.
fn put_replies(text: &mut Vec<u8>, refused: u32) -> Result<(), Memory> {
    text.extend_from_slice(b"put a.c 4\n")?;
    for ask in 1..4u32 {
        text.extend_from_slice(if ask == refused {
            b"refused tool start\n".as_slice()
        } else {
            b"object ok simple 4\nx=1\n\nmessages 0\n".as_slice()
        })?;
    }
    Ok(())
}

// The status and the output of three asks where this start or end fails, and how many of them were noted.
fn failing_tools(alloc: Global, number: u32) -> Result<(u8, Vec<u8>, usize), Memory> {
    let fails = only(alloc, number)?;
    let mut tools = FailTools::new(TableTools::toy(alloc, Seq::new(alloc)), fails);
    let text = b"put a.c 4\nx=1\nask a.c:o\nask a.c:o\nask a.c:o\n";
    let (status, output) = outcome_in(alloc, GRAPH, &mut tools, "1", text, 7)?;
    Ok((status, output, tools.inner().log().len()))
}

#[test]
fn refuses_one_ask_where_a_tool_fails(rt: HostRuntime) -> Result<(), Fail> {
    // The number of the start or end that fails, the ask that is refused, and how many starts and ends are noted: the next ask runs the call, and
    // the others find it kept.
    for (number, refused, events) in [(1, 1, 2), (2, 1, 4), (3, 0, 2)] {
        let (status, output, counted) = failing_tools(rt.alloc(), number)?;
        let mut want = Vec::new(rt.alloc());
        put_replies(&mut want, refused)?;
        assert_eq!(rt; status, 0);
        assert!(rt; output.as_slice() == want.as_slice());
        assert_eq!(rt; counted, events);
    }
    Ok(())
}

// A text and the digits of a number below 100.
fn put_number(text: &mut Vec<u8>, front: &[u8], number: u8) -> Result<(), Memory> {
    text.extend_from_slice(front)?;
    if number > 9 {
        text.push(b'0' + number / 10)?;
    }
    text.push(b'0' + number % 10)?;
    Ok(())
}

// Types `x0` to `x64`, and a tool from each to the next.
fn put_types(text: &mut Vec<u8>) -> Result<(), Memory> {
    text.extend_from_slice(b"suffix .x x0;\ntype x0 simple;\n")?;
    for number in 1..65u8 {
        put_number(text, b"type x", number)?;
        put_number(text, b" simple;\ntool t", number)?;
        put_number(text, b" 1 from x", number - 1)?;
        put_number(text, b" to x", number)?;
        text.extend_from_slice(b" run \"ld\";\n")?;
    }
    Ok(())
}

// The node after so many makers.
fn put_node(text: &mut Vec<u8>, steps: u8) -> Result<(), Memory> {
    text.extend_from_slice(b"a.x")?;
    for number in 0..steps {
        put_number(text, b":x", number.saturating_add(1))?;
    }
    text.push(b'\n')?;
    Ok(())
}

// An object, and the chain of `a.x:x64` and its bases.
fn put_chain(text: &mut Vec<u8>) -> Result<(), Memory> {
    text.extend_from_slice(b"put a.x 2\nobject ok simple 2\n1\n\nmessages 0\nrefused deep 65\n")?;
    for less in 0..65u8 {
        put_node(text, 64 - less)?;
    }
    Ok(())
}

// The status and the output of two asks over sixty-five types, and how many starts and ends there were.
fn sixty_four(alloc: Global) -> Result<(u8, Vec<u8>, usize), Memory> {
    let mut graph = Vec::new(alloc);
    put_types(&mut graph)?;
    let text = b"put a.x 2\n1\nask a.x:x63\nask a.x:x64\n";
    outcome(alloc, graph.as_slice(), "64", text, 5000)
}

#[test]
fn derives_sixty_three_steps_and_refuses_sixty_four(rt: HostRuntime) -> Result<(), Fail> {
    let (status, output, counted) = sixty_four(rt.alloc())?;
    let mut want = Vec::new(rt.alloc());
    put_chain(&mut want)?;
    assert_eq!(rt; status, 0);
    assert!(rt; output.as_slice() == want.as_slice());
    assert_eq!(rt; counted, 126);
    Ok(())
}
