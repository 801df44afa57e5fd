// The text of the reply that shows the steps to a node. It is written at once, and no reply is made for it.
ghost use Rattle.std.specs.Prelude.{◌≡◌, ◌++◌, IfOk, OnOk, map, slice_get};
ghost use Rattle.std.specs.List.{flat_map};
ghost use Rattle.meaning_texts.specs.Lines.{with_lf};
ghost use Rattle.meaning_graph.specs.Graphs.{makers};
ghost use Rattle.meaning_commands.specs.Replies.{reply_text};
ghost use Rattle.meaning_derive.specs.Replies.{maker_name, step_line, plan_of};

use object_values::{Bytes, Memory, Node, Reply, Step};
use odin_bytes::write_number;
use std::alloc::Global;
use type_graph::Graph;

// The room that most plans fit in.
const USUAL_ROOM: usize = 96;

/// The reply to a text that asks for steps: its text where there are steps, or a refusal.
#[derive(Drop)]
pub enum Planned {
    Steps(Bytes),
    Refused(Reply),
}

/// The text of the steps to a node.
pub(crate) fn plan_text(alloc: Global, graph: &Graph, node: &Node) -> Result<Bytes, Memory>
    ensures { IfOk result (λ text. text ≡ reply_text (plan_of graph.now node.now)) }
{
    let mut text = Bytes::new(alloc);
    text.reserve_exact(USUAL_ROOM)?;
    put_plan(graph, node.steps.as_slice(), &mut text)?;
    Ok(text)
}

fn put_plan(graph: &Graph, steps: &[Step], out: &mut Bytes) -> Result<(), Memory>
    ensures { let lines = map (step_line graph.now) steps.now in
        OnOk result (out.new ≡ out.old ++ reply_text (Reply.Plan lines)) }
{
    out.extend_from_slice(b"plan ")?;
    write_number(steps.len() as u64, out)?;
    out.push(b'\n')?;
    put_lines(graph, steps, out)
}

fn put_lines(graph: &Graph, steps: &[Step], out: &mut Bytes) -> Result<(), Memory>
    ensures { let lines = map (step_line graph.now) steps.now in
        OnOk result (out.new ≡ out.old ++ flat_map with_lf lines) }
{
    for step in steps {
        put_line(graph, step, out)?;
    }
    Ok(())
}

fn put_line(graph: &Graph, step: &Step, out: &mut Bytes) -> Result<(), Memory>
    ensures { OnOk result (out.new ≡ out.old ++ with_lf (step_line graph.now step.now)) }
{
    put_step(graph, step, out)?;
    out.push(b'\n')
}

fn put_step(graph: &Graph, step: &Step, out: &mut Bytes) -> Result<(), Memory>
    ensures { OnOk result (out.new ≡ out.old ++ step_line graph.now step.now) }
{
    match step {
        Step::Maker(number) => out.extend_from_slice(maker_name(graph, *number)),
        Step::Pick(key) => {
            out.push(b'%')?;
            out.extend_from_slice(key.as_slice())
        }
    }
}

// The name of a maker, and no bytes where there is no such maker.
fn maker_name(graph: &Graph, number: u32) -> &[u8]
    ensures { result.now ≡ maker_name (slice_get (makers graph.now) number) }
{
    match graph.maker(number) {
        None => b"",
        Some(maker) => maker.name.as_slice(),
    }
}
