// The messages of a node at `Abort`.
ghost use Rattle.std.specs.Prelude.{◌≡◌, ◌∷◌, [], IfOk};
ghost use Rattle.meaning_tasks.specs.Labels.{abort_message as message_at_abort, label_of as label_of_node, too_many_references};

use object_values::{Bytes, Memory, Message, Node, Seq, Status, Text};
use odin_nodes::label_of;
use std::alloc::Global;
use type_graph::Graph;

/// The one message of a node at `Abort`.
pub fn abort_message(
    alloc: Global,
    graph: &Graph,
    node: &Node,
    text: Bytes,
) -> Result<Seq<Message>, Memory>
    ensures { let label = label_of_node graph.now node.now in
        IfOk result (λ messages. messages ≡ message_at_abort label text ∷ []) }
{
    let label = Text::of(label_of(alloc, graph, node)?)?;
    let text = Text::of(text)?;
    let mut messages = Seq::new(alloc);
    messages.push(Message {
        label,
        level: Status::Abort,
        text,
    })?;
    Ok(messages)
}

/// The message of a list of more references than there may be, which stands alone.
pub fn too_many(alloc: Global, graph: &Graph, node: &Node) -> Result<Seq<Message>, Memory>
    ensures { let label = label_of_node graph.now node.now in
        IfOk result (λ messages. messages ≡ message_at_abort label too_many_references ∷ []) }
{
    let text = Bytes::from_slice(alloc, b"too many references")?;
    abort_message(alloc, graph, node, text)
}
