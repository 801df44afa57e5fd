// The replies that show views and nodes.
ghost use Rattle.std.specs.Prelude.{◌≡◌, IfOk};
ghost use Rattle.meaning_derive.specs.Replies.{node_texts, shown_body, shown};

use object_values::{Bytes, Memory, Node, Reply, Seq, ShownBody, Value, View};
use odin_nodes::node_text;
use std::alloc::Global;
use type_graph::Graph;

/// The reply that shows a view.
pub(crate) fn shown(alloc: Global, graph: &Graph, view: View) -> Result<Reply, Memory>
    ensures { IfOk result (λ reply. reply ≡ shown graph.now view) }
{
    let View {
        value,
        status,
        messages,
    } = view;
    let body = shown_body(alloc, graph, value)?;
    Ok(Reply::Shown {
        status,
        body,
        messages,
    })
}

// Bytes and parts are moved; of the nodes of a list the texts are written.
fn shown_body(alloc: Global, graph: &Graph, value: Option<Value>) -> Result<ShownBody, Memory>
    ensures { IfOk result (λ body. body ≡ shown_body graph.now value) }
{
    match value {
        None => Ok(ShownBody::Nothing),
        Some(Value::Simple(text)) => Ok(ShownBody::Simple(text)),
        Some(Value::List(nodes)) => {
            Ok(ShownBody::List(node_texts(alloc, graph, nodes.as_slice())?))
        }
        Some(Value::Compound(parts)) => Ok(ShownBody::Compound(parts)),
    }
}

/// The texts of nodes.
pub(crate) fn node_texts(alloc: Global, graph: &Graph, nodes: &[Node]) -> Result<Seq<Bytes>, Memory>
    ensures { IfOk result (λ texts. texts ≡ node_texts graph.now nodes.now) }
{
    let mut texts = Seq::new(alloc);
    'nodes: for node in nodes {
        texts.push(node_text(alloc, graph, node)?)?;
    }
    Ok(texts)
}
