// Whether what came is what a table names.
use super::graphs::Text;
use super::held::{Held, Said, said_of, status_of};
use object_values::{Call, Job, Memory, Message, Node, Part, Value, View};
use odin_nodes::node_text;
use std::alloc::Global;
use tool_calls::job_of;
use type_graph::Graph;

// Whether the nodes have these texts, in this order.
pub(super) fn are_nodes(
    alloc: Global,
    graph: &Graph,
    nodes: &[Node],
    texts: &[Text],
) -> Result<bool, Memory> {
    if nodes.len() != texts.len() {
        return Ok(false);
    }
    for (node, text) in nodes.iter().zip(texts) {
        if node_text(alloc, graph, node)?.as_slice() != *text {
            return Ok(false);
        }
    }
    Ok(true)
}

// Whether the first file of the job is `call`, with these bytes.
fn has_call(job: &Job, text: &[u8]) -> bool {
    match job.files.as_slice() {
        [file, ..] => file.name.as_slice() == b"call".as_slice() && file.body.as_slice() == text,
        [] => false,
    }
}

// Whether the call has this file `call`, or there is none and none is wanted.
pub(super) fn is_call(
    alloc: Global,
    call: Option<&Call>,
    wanted: Option<Text>,
) -> Result<bool, Memory> {
    match (call, wanted) {
        (Some(call), Some(text)) => Ok(has_call(&job_of(alloc, call)?, text)),
        (None, None) => Ok(true),
        _ => Ok(false),
    }
}

fn is_message(message: &Message, said: Said) -> bool {
    let (level, label, text) = said;
    message.level == level && message.label.as_slice() == label && message.text.as_slice() == text
}

fn are_messages(messages: &[Message], all: &[Said]) -> bool {
    messages.len() == all.len()
        && messages
            .iter()
            .zip(all)
            .all(|(message, said)| is_message(message, *said))
}

fn is_part(part: &Part, name: &[u8], body: &[u8]) -> bool {
    part.name.as_slice() == name && part.body.as_slice() == body
}

fn are_parts(parts: &[Part], rows: &[(Text, Text)]) -> bool {
    parts.len() == rows.len()
        && parts
            .iter()
            .zip(rows)
            .all(|(part, (name, body))| is_part(part, name, body))
}

fn is_value(
    alloc: Global,
    graph: &Graph,
    value: Option<&Value>,
    held: Held,
) -> Result<bool, Memory> {
    match (value, held) {
        (Some(Value::Simple(found)), Held::Simple(text)) => Ok(found.as_slice() == text),
        (Some(Value::Simple(found)), Held::Warned(text, _)) => Ok(found.as_slice() == text),
        (Some(Value::List(nodes)), Held::List(texts)) => {
            are_nodes(alloc, graph, nodes.as_slice(), texts)
        }
        (Some(Value::Compound(parts)), Held::Compound(rows)) => {
            Ok(are_parts(parts.as_slice(), rows))
        }
        (None, Held::Aborted(_)) => Ok(true),
        _ => Ok(false),
    }
}

// Whether the view is what is wanted: its status, its messages and its value.
pub(super) fn is_view(
    alloc: Global,
    graph: &Graph,
    view: &View,
    held: Held,
) -> Result<bool, Memory> {
    if view.status != status_of(held) {
        return Ok(false);
    }
    if !are_messages(view.messages.as_slice(), said_of(held)) {
        return Ok(false);
    }
    is_value(alloc, graph, view.value.as_ref(), held)
}
