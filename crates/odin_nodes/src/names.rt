// The label and the text of a node.
ghost use Rattle.std.specs.Prelude.{◌≡◌, ◌++◌, IfOk, OnOk, map, slice_get};
ghost use Rattle.std.specs.List.{flat_map};
ghost use Rattle.meaning_texts.specs.Expressions.{param_spelling, step_spelling};
ghost use Rattle.meaning_graph.specs.Graphs.{makers};
ghost use Rattle.meaning_tasks.specs.Labels.{label_of as label_of_node, node_text as text_of_node, made_name, written_step};

use object_values::{Bytes, Copied, Memory, Node, ParamValue, Step};
use std::alloc::Global;
use type_graph::Graph;

/// The source name of a node and its steps.
pub fn label_of(alloc: Global, graph: &Graph, node: &Node) -> Result<Bytes, Memory>
    ensures { IfOk result (λ label. label ≡ label_of_node graph.now node.now) }
{
    let mut label = node.source.copy(alloc)?;
    put_steps(graph, node.steps.as_slice(), &mut label)?;
    Ok(label)
}

/// The label with the parameters after the name.
pub fn node_text(alloc: Global, graph: &Graph, node: &Node) -> Result<Bytes, Memory>
    ensures { IfOk result (λ text. text ≡ text_of_node graph.now node.now) }
{
    let mut text = node.source.copy(alloc)?;
    put_params(node.params.as_slice(), &mut text)?;
    put_steps(graph, node.steps.as_slice(), &mut text)?;
    Ok(text)
}

fn put_params(params: &[ParamValue], out: &mut Bytes) -> Result<(), Memory>
    ensures { OnOk result (out.new ≡ out.old ++ flat_map param_spelling params.now) }
{
    for param in params {
        put_param(param, out)?;
    }
    Ok(())
}

// An empty value leaves out the `=` before it.
fn put_param(param: &ParamValue, out: &mut Bytes) -> Result<(), Memory>
    ensures { OnOk result (out.new ≡ out.old ++ param_spelling param.now) }
{
    out.push(b'+')?;
    out.extend_from_slice(param.param.as_slice())?;
    if param.value.is_empty() {
        return Ok(());
    }
    out.push(b'=')?;
    out.extend_from_slice(param.value.as_slice())
}

fn put_steps(graph: &Graph, steps: &[Step], out: &mut Bytes) -> Result<(), Memory>
    ensures { let written = map (written_step graph.now) steps.now in
        OnOk result (out.new ≡ out.old ++ flat_map step_spelling written) }
{
    for step in steps {
        put_step(graph, step, out)?;
    }
    Ok(())
}

fn put_step(graph: &Graph, step: &Step, out: &mut Bytes) -> Result<(), Memory>
    ensures { OnOk result (out.new ≡ out.old ++ step_spelling (written_step graph.now step.now)) }
{
    match step {
        Step::Maker(number) => {
            out.push(b':')?;
            out.extend_from_slice(type_made(graph, *number))
        }
        Step::Pick(key) => {
            out.push(b'%')?;
            out.extend_from_slice(key.as_slice())
        }
    }
}

// The name of the type that a maker makes, and no bytes where there is no such maker.
fn type_made(graph: &Graph, number: u32) -> &[u8]
    ensures { result.now ≡ made_name (slice_get (makers graph.now) number) }
{
    match graph.maker(number) {
        None => b"",
        Some(maker) => maker.to.as_slice(),
    }
}
