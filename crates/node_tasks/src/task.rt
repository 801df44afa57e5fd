// What the last step of a node asks for.
ghost use Rattle.std.specs.Prelude.{◌≡◌, option_map, IfSome, IfNone};
ghost use Rattle.object_values.specs.declared.nodes.Node.{Node as NodeValue};
ghost use Rattle.meaning_tasks.specs.Nodes.{Fits};
ghost use Rattle.meaning_tasks.specs.Tasks.{make_task, element_name, parts_of, tooled, tool_task, task_of};
ghost use Rattle.node_tasks.specs.Tasks.{told_task, IsTaskOf, RunsNoTool};

use crate::base::last_step;
use object_values::{Kind, Make, MakerDecl, Node, PartDecl, Step, Text, ToolDecl};
use odin_nodes::kind_named;
use type_graph::Graph;

/// The task of a node, by the declarations of its graph.
#[derive(Clone, Copy)]
pub(crate) enum TaskAt<'a> {
    /// The text of the source.
    Given,
    /// What the key picks from the base.
    Picked(&'a Text),
    /// A reference for each line of the base, of the type of this name.
    Read(&'a [u8]),
    /// Each reference of the base further, to the type of this name.
    Each(&'a [u8]),
    /// The values of the parts.
    Packed(&'a [PartDecl]),
    /// The maker and its tool, which is run.
    Tooled(&'a MakerDecl, &'a ToolDecl),
}

/// The task of a node that fits the graph.
pub(crate) fn task_at<'a>(graph: &'a Graph, node: &'a Node) -> TaskAt<'a>
    requires { Fits graph.now node.now }
    ensures { IsTaskOf graph.now node.now result }
{
    match last_step(node) {
        None => TaskAt::Given,
        Some(Step::Pick(key)) => TaskAt::Picked(key),
        Some(Step::Maker(number)) => {
            let Some(maker) = graph.maker(*number) else {
                // Each maker of a node that fits is there.
                unreachable!();
            };
            made_by(graph, maker)
        }
    }
}

// The task of a node whose last step is this maker.
fn made_by<'a>(graph: &'a Graph, maker: &'a MakerDecl) -> TaskAt<'a>
    ensures { (n : NodeValue) →
        make_task graph.now n maker.now maker.now.make ≡ told_task graph.now n result }
{
    let made = kind_named(graph, maker.to.as_slice());
    match &maker.make {
        Make::Tool(tool) => TaskAt::Tooled(maker, tool),
        Make::Read => TaskAt::Read(element_name(made)),
        Make::Each => TaskAt::Each(element_name(made)),
        Make::Pack => TaskAt::Packed(parts_of(made)),
    }
}

// The name of the element type of a list.
fn element_name(kind: Option<&Kind>) -> &[u8]
    ensures { result.now ≡ element_name (option_map (λ k. k.now) kind.entry) }
{
    match kind {
        Some(Kind::List(of)) => of.as_slice(),
        _ => b"",
    }
}

/// The parts of a compound, and none of anything else.
pub(crate) fn parts_of(kind: Option<&Kind>) -> &[PartDecl]
    ensures { result.now ≡ parts_of (option_map (λ k. k.now) kind.entry) }
{
    match kind {
        Some(Kind::Compound(parts)) => parts.as_slice(),
        _ => &[],
    }
}

/// The maker and the tool of a node that fits the graph. `None` where no tool is run.
pub(crate) fn tool_at<'a>(graph: &'a Graph, node: &'a Node) -> Option<(&'a MakerDecl, &'a ToolDecl)>
    requires { Fits graph.now node.now }
    ensures some { IfSome result (λ found. task_of graph.now node.now
        ≡ tooled (tool_task graph.now node.now found.0.now found.1.now)) }
    ensures none { IfNone result (RunsNoTool (task_of graph.now node.now)) }
{
    match task_at(graph, node) {
        TaskAt::Tooled(maker, tool) => Some((maker, tool)),
        TaskAt::Given | TaskAt::Picked(_) | TaskAt::Read(_) | TaskAt::Each(_) | TaskAt::Packed(_) =>
            None,
    }
}
