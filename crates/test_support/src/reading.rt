// Graphs and nodes by their texts.
ghost use Rattle.std.specs.Prelude.{◌<◌, IfOk};
ghost use Rattle.meaning_texts.specs.Expressions.{IsCanonical};
ghost use Rattle.meaning_graph.specs.Grammar.{IsSpellable};
ghost use Rattle.meaning_tasks.specs.Nodes.{Fits};

use crate::fault::Fault;
use dg_reader::{ReadFault, read_graph};
use object_values::{Expression, Node};
use odin_nodes::{NodeFault, node_from};
use path_planner::PlannedGraph;
use request_parser::{ExpressionFault, read_expression};
use std::alloc::Global;
use type_graph::Graph;

// No text that is read has more steps.
const STEPS: usize = 1_000;

/// The checked graph of a text.
pub fn graph_of(alloc: Global, text: &[u8]) -> Result<Graph, Fault>
    ensures { IfOk result IsSpellable }
{
    match read_graph(alloc, text) {
        Ok(graph) => Ok(graph),
        Err(ReadFault::Memory) => Err(Fault::Memory),
        Err(_) => Err(Fault::Graph),
    }
}

/// The node of a text.
pub fn node_in(alloc: Global, planned: &PlannedGraph<'_>, text: &[u8]) -> Result<Node, Fault>
    ensures { IfOk result (Fits planned.now) }
{
    match read_expression(alloc, text) {
        Ok(expression) => node_by(alloc, planned, expression),
        Err(ExpressionFault::Memory) => Err(Fault::Memory),
        Err(ExpressionFault::BadAt(_)) => Err(Fault::Node),
    }
}

fn node_by(alloc: Global, planned: &PlannedGraph<'_>, expression: Expression) -> Result<Node, Fault>
    ensures { IfOk result (λ node. IsCanonical expression → Fits planned.now node) }
{
    if expression.steps.len() > STEPS {
        return Err(Fault::Node);
    }
    match node_from(alloc, planned, expression) {
        Ok(node) => Ok(node),
        Err(NodeFault::Memory) => Err(Fault::Memory),
        Err(_) => Err(Fault::Node),
    }
}
