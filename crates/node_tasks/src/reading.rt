// References that are read.
ghost use Rattle.std.specs.Prelude.{◌≡◌, ◌≢◌, ◌^◌, ◌<◌, ◌∷◌, [], All, length, map, IfOk, OnOk};
ghost use Rattle.meaning_tasks.specs.Labels.{abort_message as message_at_abort, at_line, label_of as label_of_node};
ghost use Rattle.meaning_tasks.specs.NodeOf.{is_node};
ghost use Rattle.meaning_tasks.specs.Tasks.{line_led, lines_own, listed_own, read_own, with_params_of};
ghost use Rattle.odin_nodes.specs.declared.fault.NodeFault.TheVariants as faults;
ghost use Rattle.node_tasks.specs.Reading.{answer_led, fault_text, AreOfFewSteps, HasFewSteps};

use crate::gathering::put_led;
use crate::own::Own;
use object_values::{Bytes, Copied, Expression, Line, Lines, Memory, Node, Seq, Value};
use odin_bytes::write_number;
use odin_nodes::{NodeFault, node_from, onward_from};
use path_planner::PlannedGraph;
use request_parser::{merge_params, read_lines};
use std::alloc::Global;
use task_needs::{Led, abort_message, too_many};
use type_graph::Graph;

/// One reference for each line of a text.
pub(crate) fn read_own(
    alloc: Global,
    planned: &PlannedGraph<'_>,
    node: &Node,
    of: &[u8],
    value: &Value,
) -> Result<Own, Memory>
    ensures { IfOk result (λ own. own ≡ read_own planned.now node.now of.now value.now) }
{
    match value {
        Value::Simple(text) => {
            let lines = read_lines(alloc, text.as_slice())?;
            lines_own(alloc, planned, node, of, &lines)
        }
        Value::List(_) | Value::Compound(_) => Ok(Own::aborted(Seq::new(alloc))),
    }
}

fn lines_own(
    alloc: Global,
    planned: &PlannedGraph<'_>,
    node: &Node,
    of: &[u8],
    lines: &Lines,
) -> Result<Own, Memory>
    requires few { AreOfFewSteps lines.now }
    ensures { IfOk result (λ own. own ≡ lines_own planned.now node.now of.now lines.now) }
{
    match lines {
        Lines::These(lines) => these_own(alloc, planned, node, of, lines.as_slice()),
        Lines::TooMany => Ok(Own::aborted(too_many(alloc, planned.graph(), node)?)),
    }
}

fn these_own(
    alloc: Global,
    planned: &PlannedGraph<'_>,
    node: &Node,
    of: &[u8],
    lines: &[Line],
) -> Result<Own, Memory>
    requires few { All HasFewSteps lines.now }
    ensures { let led = map (line_led planned.now node.now of.now) lines.now in
        IfOk result (λ own. own ≡ listed_own led) }
{
    let mut nodes = Seq::from_vec(Vec::with_capacity(alloc, lines.len())?);
    let mut missing = Seq::new(alloc);
    for line in lines {
        let led = line_led(alloc, planned, node, of, line)?;
        put_led(alloc, led, &mut nodes, &mut missing)?;
    }
    Ok(Own::fine_unless(Value::List(nodes), missing))
}

// Where a line leads, or what is wrong with it.
fn line_led(
    alloc: Global,
    planned: &PlannedGraph<'_>,
    node: &Node,
    of: &[u8],
    line: &Line,
) -> Result<Led, Memory>
    requires few { HasFewSteps line.now }
    ensures { IfOk result (λ led. led ≡ line_led planned.now node.now of.now line.now) }
{
    match line {
        Line::Good(number, expression) => {
            good_led(alloc, planned, node, of, *number, expression)
        }
        Line::Bad(number) => faulty(alloc, planned.graph(), node, *number, b"bad reference"),
    }
}

fn good_led(
    alloc: Global,
    planned: &PlannedGraph<'_>,
    node: &Node,
    of: &[u8],
    number: u64,
    expression: &Expression,
) -> Result<Led, Memory>
    requires few { length expression.now.steps < 2 ^ 32 }
    ensures { let line = Line.Good number expression.now in
        IfOk result (λ led. led ≡ line_led planned.now node.now of.now line) }
{
    match node_from(alloc, planned, expression.copy(alloc)?) {
        Ok(read) => read_led(alloc, planned, node, of, number, read),
        Err(NodeFault::Memory) => Err(Memory),
        Err(fault) => faulty(alloc, planned.graph(), node, number, fault_text(&fault)),
    }
}

// On from the node of a line to the element type.
fn read_led(
    alloc: Global,
    planned: &PlannedGraph<'_>,
    node: &Node,
    of: &[u8],
    number: u64,
    read: Node,
) -> Result<Led, Memory>
    ensures { let answer = is_node read in
        IfOk result (λ led. led ≡ answer_led planned.now node.now of.now number answer) }
{
    let mut read = read;
    add_params_of(alloc, node, &mut read)?;
    match onward_from(alloc, planned, read, of)? {
        Some(led) => Ok(Led {
            node: Some(led),
            missing: Seq::new(alloc),
        }),
        None => faulty(alloc, planned.graph(), node, number, b"no path"),
    }
}

// The parameters of the node that reads, and after them those of the line.
fn add_params_of(alloc: Global, node: &Node, read: &mut Node) -> Result<(), Memory>
    ensures { OnOk result (read.new ≡ with_params_of node.now read.old) }
{
    read.params = merge_params(alloc, node.params.as_slice(), read.params.as_slice())?;
    Ok(())
}

// Why an expression has no node, for want of memory aside.
fn fault_text(fault: &NodeFault) -> &[u8]
    requires { fault.now ≢ faults.Memory }
    ensures { result.now ≡ fault_text fault.now }
{
    match fault {
        NodeFault::UnknownParam(_) => b"unknown parameter",
        NodeFault::UnknownType(_) => b"unknown type",
        NodeFault::NoPath(_) => b"no path",
        NodeFault::Memory => unreachable!(),
    }
}

// The line of this number leads nowhere.
fn faulty(
    alloc: Global,
    graph: &Graph,
    node: &Node,
    number: u64,
    fault: &[u8],
) -> Result<Led, Memory>
    ensures { let label = label_of_node graph.now node.now in
        let message = message_at_abort label (at_line number fault.now) in
        IfOk result (λ led. led ≡ record { node = None; missing = message ∷ [] }) }
{
    let text = line_text(alloc, number, fault)?;
    let missing = abort_message(alloc, graph, node, text)?;
    Ok(Led {
        node: None,
        missing,
    })
}

fn line_text(alloc: Global, number: u64, fault: &[u8]) -> Result<Bytes, Memory>
    ensures { IfOk result (λ text. text ≡ at_line number fault.now) }
{
    let mut text = Bytes::from_slice(alloc, b"line ")?;
    write_number(number, &mut text)?;
    text.extend_from_slice(b": ")?;
    text.extend_from_slice(fault)?;
    Ok(text)
}
