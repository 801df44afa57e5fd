// The replies to commands.
use crate::messages::{Message, Status};
use crate::text::Text;
use crate::views::Part;
use sequences::{Bytes, Seq, SharedSeq};

/// A reply: one variant a row of the table of replies in docs/user/reference.md. A list of texts holds the lines after the first one, each without
/// its LF; the number in the first line is their count.
pub enum Reply {
    Put(Bytes, u64),
    Took(Bytes, u64),
    NoFile(Bytes),
    Dropped(Bytes),
    NoSource(Bytes),
    Sources(Seq<Bytes>),
    Kept(u64),
    Plan(Seq<Bytes>),
    Bye,
    RefusedCommand,
    RefusedName,
    RefusedSize,
    RefusedRead,
    /// With the place, from 1, of the first byte that can't go on.
    RefusedExpression(u64),
    RefusedParam(Bytes),
    RefusedType(Bytes),
    /// With the number of the step, from 1.
    RefusedPath(u64),
    RefusedCircular(Seq<Bytes>),
    RefusedDeep(Seq<Bytes>),
    RefusedToolStart,
    /// An object, with its messages.
    Shown {
        status: Status,
        body: ShownBody,
        messages: SharedSeq<Message>,
    },
}

// By hand: a drop is one call, where a derived one is opened field by field at each early return.
impl Drop for Reply {
    fn drop(self) {
        match self {
            Reply::Put(text, _) | Reply::Took(text, _) => drop(text),
            Reply::NoFile(text) | Reply::Dropped(text) | Reply::NoSource(text) => drop(text),
            Reply::Sources(lines) | Reply::Plan(lines) => drop(lines),
            Reply::RefusedParam(text) | Reply::RefusedType(text) => drop(text),
            Reply::RefusedCircular(lines) | Reply::RefusedDeep(lines) => drop(lines),
            Reply::Shown {
                status: _,
                body,
                messages,
            } => {
                drop(body);
                drop(messages);
            }
            Reply::Kept(_)
            | Reply::Bye
            | Reply::RefusedCommand
            | Reply::RefusedName
            | Reply::RefusedSize
            | Reply::RefusedRead
            | Reply::RefusedExpression(_)
            | Reply::RefusedPath(_)
            | Reply::RefusedToolStart => {}
        }
    }
}

/// What is shown of an object: nothing exactly at `Abort`. A list is shown by the texts of its nodes.
pub enum ShownBody {
    Nothing,
    Simple(Text),
    List(Seq<Bytes>),
    Compound(Seq<Part>),
}

// By hand, as that of a reply.
impl Drop for ShownBody {
    fn drop(self) {
        match self {
            ShownBody::Nothing => {}
            ShownBody::Simple(text) => drop(text),
            ShownBody::List(lines) => drop(lines),
            ShownBody::Compound(parts) => drop(parts),
        }
    }
}
