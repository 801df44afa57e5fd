// What a text asks for.
ghost use Rattle.std.specs.Prelude.{◌<◌, ◌^◌, length, IfOk, IfErr};
ghost use Rattle.meaning_texts.specs.Expressions.{ExpressionText};
ghost use Rattle.meaning_graph.specs.Graphs.{Text};
ghost use Rattle.odin_engine.specs.Asked.{IsNodeOf, IsRefusedFor, IsFaultOf, IsStepFault};

use crate::fault::AskFault;
use object_values::{Expression, Node};
use odin_nodes::{NodeFault, node_from};
use path_planner::PlannedGraph;
use request_parser::{ExpressionFault, read_expression};
use std::alloc::Global;

/// The node that a text asks for, or why it asks for none.
pub(crate) fn node_of_text(
    alloc: Global,
    planned: &PlannedGraph<'_>,
    text: &[u8],
) -> Result<Node, AskFault>
    ensures ok { IfOk result (IsNodeOf planned.now text.now) }
    ensures err { IfErr result (IsRefusedFor planned.now text.now) }
{
    match read_expression(alloc, text) {
        Ok(expression) => node_by(alloc, planned, expression),
        Err(fault) => Err(no_expression(fault)),
    }
}

// The node of an expression, or why it has none.
fn node_by(
    alloc: Global,
    planned: &PlannedGraph<'_>,
    expression: Expression,
) -> Result<Node, AskFault>
    requires few { length expression.steps < 2 ^ 32 }
    ensures ok { IfOk result (λ node. (text : Text) → ExpressionText text expression →
        IsNodeOf planned.now text node) }
    ensures err { IfErr result (λ fault. (text : Text) → ExpressionText text expression →
        IsRefusedFor planned.now text fault) }
{
    match node_from(alloc, planned, expression) {
        Ok(node) => Ok(node),
        Err(fault) => Err(no_node(fault)),
    }
}

// Why a text is no expression.
fn no_expression(fault: ExpressionFault) -> AskFault
    ensures { IsFaultOf fault result }
{
    match fault {
        ExpressionFault::BadAt(place) => AskFault::Expression(place),
        ExpressionFault::Memory => AskFault::Memory,
    }
}

// Why an expression has no node.
fn no_node(fault: NodeFault) -> AskFault
    ensures { IsStepFault fault result }
{
    match fault {
        NodeFault::UnknownParam(name) => AskFault::UnknownParam(name),
        NodeFault::UnknownType(name) => AskFault::UnknownType(name),
        NodeFault::NoPath(step) => AskFault::Path(step),
        NodeFault::Memory => AskFault::Memory,
    }
}
