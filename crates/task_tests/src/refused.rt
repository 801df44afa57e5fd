// Texts that have no node.
use super::graphs::{C_UNITS, Decls, KITS, Text};
use super::rows::text_of;
use path_planner::{PlannedGraph, Plans};
use std::alloc::Global;
use std::test::Fail;
use test_support::{Fault, graph_of, node_in};

const TEXTS: &[Text] = &[
    // no path, whatever there is
    b"a.c:exe",
    b"a.c:o%1",
    // numbers of elements have no leading zeros, and parts have names
    b"m.sm:objs%01",
    b"m.sm:objs%0",
    b"m.sm:kit%1",
    b"a.c+opt:o",
    b"a.c:",
];

fn is_refused(alloc: Global, pieces: &[Decls], text: &[u8]) -> Result<bool, Fault> {
    let written = text_of(alloc, pieces)?;
    let graph = graph_of(alloc, written.as_slice())?;
    let plans = Plans::new(alloc, &graph)?;
    match node_in(alloc, &PlannedGraph::new(&graph, &plans), text) {
        Err(fault) => Ok(fault == Fault::Node),
        Ok(_) => Ok(false),
    }
}

#[test]
fn some_texts_have_no_node(rt: HostRuntime) -> Result<(), Fail> {
    for (place, text) in TEXTS.iter().enumerate() {
        assert!(rt;
            is_refused(rt.alloc(), &[C_UNITS, KITS], text)?,
            "text {place}"
        );
    }
    Ok(())
}
