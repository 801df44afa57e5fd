// Chosen paths of worked graphs.
use super::units::UNITS;
use dg_reader::read_graph;
use object_values::{Memory, Seq};
use path_planner::Plans;
use std::alloc::Global;
use std::test::Fail;
use type_graph::Graph;

// The chosen path in a graph with both types.
fn plan_in(alloc: Global, graph: &Graph, from: u32, to: u32) -> Result<Option<Seq<u32>>, Memory> {
    if from >= graph.type_count() || to >= graph.type_count() {
        return Err(Memory);
    }
    let plans = Plans::new(alloc, graph)?;
    plans.plan(alloc, graph, from, to)
}

// The chosen path in a graph file with both types.
fn planned(alloc: Global, text: &[u8], from: u32, to: u32) -> Result<Option<Seq<u32>>, Memory> {
    match read_graph(alloc, text) {
        Ok(graph) => plan_in(alloc, &graph, from, to),
        Err(_) => Err(Memory),
    }
}

const TWO_WAYS: &[u8] =
    b"type a simple;\ntype b simple;\ntype c simple;\ntype d simple;\ntool p 1 from a to b run \"ld\";\ntool q 1 from a to c run \"ld\";\ntool r 1 from c to d run \"ld\";\ntool s 1 from b to d run \"ld\";\n";

const THREE_WAYS: &[u8] =
    b"type a simple;\ntype b simple;\ntype c simple;\ntype d simple;\ntool p 1 from a to b run \"ld\";\ntool q 1 from a to c run \"ld\";\ntool r 1 from c to d run \"ld\";\ntool s 1 from b to d run \"ld\";\ntool t 1 from a to d run \"ld\";\n";

// A graph, two types by their numbers, and the chosen path between them.
type Row = (&'static [u8], u32, u32, Option<&'static [u32]>);

const ROWS: &[Row] = &[
    (TWO_WAYS, 1, 4, Some(&[0, 3])),
    (TWO_WAYS, 4, 1, None),
    (THREE_WAYS, 1, 4, Some(&[4])),
    (UNITS, 3, 6, Some(&[2, 3, 4])),
    (UNITS, 2, 1, Some(&[])),
    (UNITS, 0, 0, Some(&[])),
    (UNITS, 2, 4, Some(&[0])),
    (UNITS, 6, 1, Some(&[5])),
    (UNITS, 6, 5, Some(&[5, 1])),
    (UNITS, 3, 9, Some(&[6])),
    (UNITS, 2, 6, None),
    (UNITS, 1, 5, None),
];

#[test]
fn the_chosen_path_is_answered(rt: HostRuntime) -> Result<(), Fail> {
    for (text, from, to, wanted) in ROWS {
        let path = planned(rt.alloc(), text, *from, *to)?;
        match (&path, wanted) {
            (Some(path), Some(wanted)) => assert!(rt; path.as_slice() == *wanted),
            (None, None) => {}
            _ => assert!(rt; false),
        }
    }
    Ok(())
}
