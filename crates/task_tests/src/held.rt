// Results as tables name them.
use super::graphs::Text;
use object_values::{
    Bytes, Memory, Message, Node, Part, Seq, SharedSeq, Status, Text as SharedText, Value, View,
};
use path_planner::PlannedGraph;
use std::alloc::Global;
use test_support::{Fault, Table, body_of, node_in};

// A message: its level, its label and its text.
pub(super) type Said = (Status, Text, Text);

// An object as it is found: a text, this text so many times, a text beside messages that warn, the
// texts of nodes, parts with their names, or nothing but messages.
#[derive(Clone, Copy)]
pub(super) enum Held {
    Simple(Text),
    Repeated(Text, u32),
    Warned(Text, &'static [Said]),
    List(&'static [Text]),
    Compound(&'static [(Text, Text)]),
    Aborted(&'static [Said]),
}

// Nodes by their texts, each with what is found of it.
pub(super) type Results = &'static [(Text, Held)];

pub(super) fn status_of(held: Held) -> Status {
    match held {
        Held::Warned(_, _) => Status::Warning,
        Held::Aborted(_) => Status::Abort,
        _ => Status::Ok,
    }
}

pub(super) fn said_of(held: Held) -> &'static [Said] {
    match held {
        Held::Warned(_, said) => said,
        Held::Aborted(said) => said,
        _ => &[],
    }
}

fn repeated(alloc: Global, text: &[u8], count: u32) -> Result<Bytes, Memory> {
    let mut bytes = Bytes::new(alloc);
    for _ in 0..count {
        bytes.extend_from_slice(text)?;
    }
    Ok(bytes)
}

fn message_of(alloc: Global, said: Said) -> Result<Message, Memory> {
    let (level, label, text) = said;
    Ok(Message {
        label: SharedText::of(Bytes::from_slice(alloc, label)?)?,
        level,
        text: SharedText::of(Bytes::from_slice(alloc, text)?)?,
    })
}

fn messages_of(alloc: Global, all: &[Said]) -> Result<SharedSeq<Message>, Memory> {
    let mut messages = Seq::new(alloc);
    for said in all {
        messages.push(message_of(alloc, *said)?)?;
    }
    SharedSeq::of(messages)
}

fn nodes_of(alloc: Global, planned: &PlannedGraph<'_>, texts: &[Text]) -> Result<Seq<Node>, Fault> {
    let mut nodes = Seq::new(alloc);
    for text in texts {
        nodes.push(node_in(alloc, planned, text)?)?;
    }
    Ok(nodes)
}

fn part_of(alloc: Global, name: &[u8], body: &[u8]) -> Result<Part, Memory> {
    Ok(Part {
        name: Bytes::from_slice(alloc, name)?,
        body: body_of(alloc, body)?,
    })
}

fn parts_of(alloc: Global, rows: &[(Text, Text)]) -> Result<Seq<Part>, Memory> {
    let mut parts = Seq::new(alloc);
    for (name, body) in rows {
        parts.push(part_of(alloc, name, body)?)?;
    }
    Ok(parts)
}

fn value_of(alloc: Global, planned: &PlannedGraph<'_>, held: Held) -> Result<Option<Value>, Fault> {
    match held {
        Held::Simple(text) => Ok(Some(Value::Simple(body_of(alloc, text)?))),
        Held::Repeated(text, count) => {
            let bytes = repeated(alloc, text, count)?;
            Ok(Some(Value::Simple(body_of(alloc, bytes.as_slice())?)))
        }
        Held::Warned(text, _) => Ok(Some(Value::Simple(body_of(alloc, text)?))),
        Held::List(texts) => Ok(Some(Value::List(nodes_of(alloc, planned, texts)?))),
        Held::Compound(rows) => Ok(Some(Value::Compound(parts_of(alloc, rows)?))),
        Held::Aborted(_) => Ok(None),
    }
}

fn view_of(alloc: Global, planned: &PlannedGraph<'_>, held: Held) -> Result<View, Fault> {
    let messages = messages_of(alloc, said_of(held))?;
    Ok(View {
        value: value_of(alloc, planned, held)?,
        status: status_of(held),
        messages,
    })
}

fn put_result(
    alloc: Global,
    planned: &PlannedGraph<'_>,
    text: &[u8],
    held: Held,
    table: &mut Table,
) -> Result<(), Fault> {
    let node = node_in(alloc, planned, text)?;
    let view = view_of(alloc, planned, held)?;
    table.put(node, view)?;
    Ok(())
}

// Adds what is found of nodes to a table.
pub(super) fn put_results(
    alloc: Global,
    planned: &PlannedGraph<'_>,
    results: &[(Text, Held)],
    table: &mut Table,
) -> Result<(), Fault> {
    for (text, held) in results {
        put_result(alloc, planned, text, *held, table)?;
    }
    Ok(())
}
