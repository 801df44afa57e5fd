// Labels and texts of nodes over a small graph.
use dg_reader::read_graph;
use object_values::{Bytes, Memory, Node, ParamValue, Seq, ShortSeq, Step, Text};
use odin_nodes::{label_of, node_text};
use std::alloc::Global;
use std::test::Fail;
use type_graph::Graph;

// Maker 0 makes `object` of `text`, and maker 1 makes `program` of `object`.
const GRAPH: &[u8] =
    b"type object simple;\ntype program simple;\ntool compile 1 from text to object run \"x\";\ntool link 1 from object to program run \"x\";\n";

// A digit is the maker of that number, and a letter the key of a pick.
fn step(alloc: Global, byte: u8) -> Result<Step, Memory> {
    match byte {
        b'0'..=b'9' => Ok(Step::Maker(byte as u32 - 48)),
        _ => Ok(Step::Pick(Text::of(Bytes::from_slice(alloc, &[byte])?)?)),
    }
}

fn steps_of(alloc: Global, digits: &[u8]) -> Result<ShortSeq<Step>, Memory> {
    let mut steps = ShortSeq::new(alloc);
    for digit in digits {
        steps.push(step(alloc, *digit)?)?;
    }
    Ok(steps)
}

fn param(alloc: Global, name: &[u8], value: &[u8]) -> Result<ParamValue, Memory> {
    Ok(ParamValue {
        param: Bytes::from_slice(alloc, name)?,
        value: Bytes::from_slice(alloc, value)?,
    })
}

// The parameters `debug` and `define=A=1`.
fn params(alloc: Global) -> Result<Seq<ParamValue>, Memory> {
    let mut params = Seq::new(alloc);
    params.push(param(alloc, b"debug", b"")?)?;
    params.push(param(alloc, b"define", b"A=1")?)?;
    Ok(params)
}

fn node(alloc: Global, digits: &[u8]) -> Result<Node, Memory> {
    Ok(Node {
        source: Bytes::from_slice(alloc, b"main.c")?,
        params: params(alloc)?,
        steps: steps_of(alloc, digits)?,
    })
}

// The label and the text of the node with these steps.
fn written(alloc: Global, graph: &Graph, digits: &[u8]) -> Result<(Bytes, Bytes), Memory> {
    let node = node(alloc, digits)?;
    let label = label_of(alloc, graph, &node)?;
    Ok((label, node_text(alloc, graph, &node)?))
}

fn written_in_graph(alloc: Global, digits: &[u8]) -> Result<(Bytes, Bytes), Memory> {
    match read_graph(alloc, GRAPH) {
        Ok(graph) => written(alloc, &graph, digits),
        Err(_) => Err(Memory),
    }
}

// Steps, the label and the text.
const ROWS: &[(&[u8], &[u8], &[u8])] = &[
    (b"", b"main.c", b"main.c+debug+define=A=1"),
    (
        b"01",
        b"main.c:object:program",
        b"main.c+debug+define=A=1:object:program",
    ),
    (
        b"k1",
        b"main.c%k:program",
        b"main.c+debug+define=A=1%k:program",
    ),
    (b"2", b"main.c:", b"main.c+debug+define=A=1:"),
];

#[test]
fn nodes_are_written_by_their_steps(rt: HostRuntime) -> Result<(), Fail> {
    for (digits, label, text) in ROWS {
        let (found, whole) = written_in_graph(rt.alloc(), digits)?;
        assert!(rt; found.as_slice() == *label && whole.as_slice() == *text);
    }
    Ok(())
}
