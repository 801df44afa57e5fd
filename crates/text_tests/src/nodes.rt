// Nodes of expressions, and their types.
use super::units::UNITS;
use dg_reader::read_graph;
use object_values::{Bytes, Expression, Memory, Node, Seq, ShortSeq, Step};
use odin_nodes::{NodeFault, node_of, node_text, type_of};
use path_planner::Plans;
use request_parser::read_expression;
use std::alloc::Global;
use std::test::Fail;
use type_graph::Graph;

type Text = &'static [u8];

// What comes of an expression: the text of its node and the number of its type, or a fault.
#[derive(Clone, Copy)]
enum Wanted {
    Node(Text, u32),
    UnknownParam(Text),
    UnknownType(Text),
    NoPath(u32),
}

fn is_node(
    alloc: Global,
    graph: &Graph,
    node: &Node,
    text: &[u8],
    number: u32,
) -> Result<bool, Memory> {
    let written = node_text(alloc, graph, node)?;
    Ok(written.as_slice() == text && type_of(graph, node) == Some(number))
}

fn is_fault(fault: &NodeFault, wanted: Wanted) -> Result<bool, Memory> {
    match (fault, wanted) {
        (NodeFault::UnknownParam(name), Wanted::UnknownParam(text)) => Ok(name.as_slice() == text),
        (NodeFault::UnknownType(name), Wanted::UnknownType(text)) => Ok(name.as_slice() == text),
        (NodeFault::NoPath(number), Wanted::NoPath(step)) => Ok(*number == step),
        (NodeFault::Memory, _) => Err(Memory),
        _ => Ok(false),
    }
}

// Whether this comes of the expression.
fn comes(
    alloc: Global,
    graph: &Graph,
    expression: &Expression,
    wanted: Wanted,
) -> Result<bool, Memory> {
    if expression.steps.len() > 1_000 {
        return Ok(false);
    }
    let plans = Plans::new(alloc, graph)?;
    match (node_of(alloc, graph, &plans, expression), wanted) {
        (Ok(node), Wanted::Node(text, number)) => is_node(alloc, graph, &node, text, number),
        (Ok(_), _) => Ok(false),
        (Err(fault), wanted) => is_fault(&fault, wanted),
    }
}

// The same of a text in a graph.
fn comes_of(alloc: Global, graph: &[u8], text: &[u8], wanted: Wanted) -> Result<bool, Memory> {
    match (read_graph(alloc, graph), read_expression(alloc, text)) {
        (Ok(graph), Ok(expression)) => comes(alloc, &graph, &expression, wanted),
        _ => Ok(false),
    }
}

// Expressions over the graph of units, each with what comes of it.
const ROWS: &[(Text, Wanted)] = &[
    (b"a.c", Wanted::Node(b"a.c", 2)),
    (b"a.h:c", Wanted::NoPath(1)),
    (b"a:c", Wanted::NoPath(1)),
    (b"a.c:o", Wanted::Node(b"a.c:o", 5)),
    // After an empty path the node keeps its own type.
    (b"a.c:hdr:o", Wanted::Node(b"a.c:o", 5)),
    (b"m.sm:exe", Wanted::Node(b"m.sm:units:objs:exe", 6)),
    (b"m.sm:units:exe", Wanted::Node(b"m.sm:units:objs:exe", 6)),
    // Parameters in their order.
    (
        b"a.c+debug=b+debug=a:o",
        Wanted::Node(b"a.c+debug=b+debug=a:o", 5),
    ),
    (b"a.c+opt:o", Wanted::UnknownParam(b"opt")),
    (b"a.c+opt:zz", Wanted::UnknownParam(b"opt")),
    (b"a.c+zz+debug+opt:o", Wanted::UnknownParam(b"opt")),
    // Steps in their order.
    (b"a.c:zz", Wanted::UnknownType(b"zz")),
    (b"a.c%1:zz", Wanted::NoPath(1)),
    (b"a.c:o%1", Wanted::NoPath(2)),
    (b"a.c:exe%1", Wanted::NoPath(1)),
    (b"a.c:o:zz%1", Wanted::UnknownType(b"zz")),
    // Elements by their numbers.
    (b"m.sm:objs%2", Wanted::Node(b"m.sm:units:objs%2", 5)),
    (b"m.sm:units%1:o", Wanted::Node(b"m.sm:units%1:o", 5)),
    (b"m.sm:units%01", Wanted::NoPath(2)),
    (b"m.sm:units%0", Wanted::NoPath(2)),
    (b"m.sm:units%x", Wanted::NoPath(2)),
    (
        b"m.sm:units%4294967295",
        Wanted::Node(b"m.sm:units%4294967295", 2),
    ),
    (b"m.sm:units%4294967296", Wanted::NoPath(2)),
    // Parts by their names.
    (b"m.sm:kit%prog", Wanted::Node(b"m.sm:kit%prog", 6)),
    (
        b"m.sm:kit%src:units%2",
        Wanted::Node(b"m.sm:kit%src:units%2", 2),
    ),
    (b"m.sm:kit%1", Wanted::NoPath(2)),
];

#[test]
fn nodes_come_of_expressions(rt: HostRuntime) -> Result<(), Fail> {
    for (text, wanted) in ROWS {
        assert!(rt; comes_of(rt.alloc(), UNITS, text, *wanted)?);
    }
    Ok(())
}

// The type of a node with one step, in a graph.
fn type_in(alloc: Global, graph: &[u8], source: &[u8], step: Step) -> Result<Option<u32>, Memory> {
    let mut steps = ShortSeq::new(alloc);
    steps.push(step)?;
    let node = Node {
        source: Bytes::from_slice(alloc, source)?,
        params: Seq::new(alloc),
        steps,
    };
    match read_graph(alloc, graph) {
        Ok(graph) => Ok(type_of(&graph, &node)),
        Err(_) => Err(Memory),
    }
}

// A source, the number of a maker, and the type of what it makes.
const MADE: &[(Text, u32, Option<u32>)] = &[
    (b"a.c", 1, Some(5)),
    (b"a.h", 1, None),
    (b"a.c", 99, None),
    (b"a b.c", 1, None),
    (b"", 1, None),
];

#[test]
fn nodes_that_do_not_fit_have_no_type(rt: HostRuntime) -> Result<(), Fail> {
    for (source, maker, wanted) in MADE {
        let found = type_in(rt.alloc(), UNITS, source, Step::Maker(*maker))?;
        assert!(rt; found == *wanted);
    }
    Ok(())
}
