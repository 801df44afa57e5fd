// The calls that take a graph and its plans apart.
ghost use Rattle.meaning_graph.specs.Grammar.{IsSpellable};

use super::graphs::C_UNITS;
use super::held::{Held, Results, put_results};
use super::rows::text_of;
use super::shown::{are_nodes, is_view};
use node_tasks::{Needed, call_for, needs, settle};
use path_planner::{PlannedGraph, Plans};
use std::alloc::Global;
use std::test::Fail;
use test_support::{Fault, Table, graph_of, node_in};
use type_graph::Graph;

const UNITS: Results = &[(b"m.sm", Held::Simple(b"a.c\nb.c\n"))];

// Whether a list of units has its base as its need, runs no tool, and settles to its nodes.
fn settles(alloc: Global, graph: &Graph) -> Result<bool, Fault>
    requires { IsSpellable graph.now }
{
    let plans = Plans::new(alloc, graph)?;
    let planned = PlannedGraph::new(graph, &plans);
    let mut table = Table::new(alloc);
    put_results(alloc, &planned, UNITS, &mut table)?;
    let node = node_in(alloc, &planned, b"m.sm:units")?;
    if node.steps.is_empty() {
        return Ok(false);
    }
    let needed = Needed::find(alloc, &planned, &node, &table)?;
    let needs = needs(alloc, graph, &plans, &node, &table)?;
    let call = call_for(alloc, graph, &plans, &node, &needed, &table)?;
    let view = settle(alloc, graph, &plans, &node, &needed, &table, None)?;
    if call.is_some() || !are_nodes(alloc, graph, needs.as_slice(), &[b"m.sm"])? {
        return Ok(false);
    }
    Ok(is_view(alloc, graph, &view, Held::List(&[b"a.c", b"b.c"]))?)
}

fn comes_out(alloc: Global) -> Result<bool, Fault> {
    let text = text_of(alloc, &[C_UNITS])?;
    let graph = graph_of(alloc, text.as_slice())?;
    settles(alloc, &graph)
}

#[test]
fn a_node_settles_by_a_graph_and_plans_apart(rt: HostRuntime) -> Result<(), Fail> {
    assert!(rt; comes_out(rt.alloc())?);
    Ok(())
}
