// Objects with their messages.
ghost use Rattle.std.specs.Prelude.{◌++◌, ◌↔◌, IfOk, IsTrue, codes};
ghost use Rattle.meaning_commands.specs.Replies.{body_text, messages_text, reply_text};
ghost use Rattle.meaning_commands.specs.Formed.{AreFormed, IsFormedMessage, IsFormedBody, IsShownAt, IsFormed};
ghost use Rattle.odin_commands.specs.Reading.{ReadsFront};

use crate::items::{read_counted, status_of};
use crate::sizes::{cut_body, cut_number};
use object_values::{Bytes, Memory, Message, Reply, SharedSeq, ShownBody, Status, Text};
use odin_bytes::cut_at;
use odin_bytes::laws::escapes_read_back;
use std::alloc::Global;

// After the word.
fn read_simple(alloc: Global, text: &[u8]) -> Result<Option<(ShownBody, &[u8])>, Memory>
    ensures { IfOk result (ReadsFront body_text IsFormedBody (codes "simple " ++ text.now)) }
{
    let Some((size, rest)) = cut_number(text) else {
        return Ok(None);
    };
    let Some((body, behind)) = cut_body(rest, size) else {
        return Ok(None);
    };
    let text = Text::of(Bytes::from_slice(alloc, body)?)?;
    Ok(Some((ShownBody::Simple(text), behind)))
}

fn read_list(alloc: Global, text: &[u8]) -> Result<Option<(ShownBody, &[u8])>, Memory>
    ensures { IfOk result (ReadsFront body_text IsFormedBody (codes "list " ++ text.now)) }
{
    match read_counted(alloc, text)? {
        Some((lines, behind)) => Ok(Some((ShownBody::List(lines), behind))),
        None => Ok(None),
    }
}

fn read_compound(alloc: Global, text: &[u8]) -> Result<Option<(ShownBody, &[u8])>, Memory>
    ensures { IfOk result (ReadsFront body_text IsFormedBody (codes "compound " ++ text.now)) }
{
    match read_counted(alloc, text)? {
        Some((parts, behind)) => Ok(Some((ShownBody::Compound(parts), behind))),
        None => Ok(None),
    }
}

fn read_body(alloc: Global, text: &[u8]) -> Result<Option<(ShownBody, &[u8])>, Memory>
    ensures { IfOk result (ReadsFront body_text IsFormedBody text.now) }
{
    if let Some(behind) = text.strip_prefix(b"none 0\n") {
        return Ok(Some((ShownBody::Nothing, behind)));
    }
    if let Some(rest) = text.strip_prefix(b"simple ") {
        return read_simple(alloc, rest);
    }
    if let Some(rest) = text.strip_prefix(b"list ") {
        return read_list(alloc, rest);
    }
    if let Some(rest) = text.strip_prefix(b"compound ") {
        return read_compound(alloc, rest);
    }
    Ok(None)
}

fn read_messages(alloc: Global, text: &[u8]) -> Result<Option<(SharedSeq<Message>, &[u8])>, Memory>
    ensures { IfOk result (ReadsFront messages_text (AreFormed IsFormedMessage) text.now) }
{
    let Some(rest) = text.strip_prefix(b"messages ") else {
        return Ok(None);
    };
    escapes_read_back();
    match read_counted(alloc, rest)? {
        Some((messages, behind)) => Ok(Some((SharedSeq::of(messages)?, behind))),
        None => Ok(None),
    }
}

// Nothing is shown exactly at `Abort`.
fn is_shown_at(status: Status, body: &ShownBody) -> bool
    ensures { IsTrue result ↔ IsShownAt status body.now }
{
    match body {
        ShownBody::Nothing => matches!(status, Status::Abort),
        ShownBody::Simple(_) | ShownBody::List(_) | ShownBody::Compound(_) => {
            !matches!(status, Status::Abort)
        }
    }
}

/// After the word `object`.
pub(crate) fn read_object(alloc: Global, text: &[u8]) -> Result<Option<(Reply, &[u8])>, Memory>
    ensures { IfOk result (ReadsFront reply_text IsFormed (codes "object " ++ text.now)) }
{
    let Some((word, rest)) = cut_at(b' ', text) else {
        return Ok(None);
    };
    let Some(status) = status_of(word) else {
        return Ok(None);
    };
    let Some((body, rest)) = read_body(alloc, rest)? else {
        return Ok(None);
    };
    if !is_shown_at(status, &body) {
        return Ok(None);
    }
    let Some((messages, behind)) = read_messages(alloc, rest)? else {
        return Ok(None);
    };
    let reply = Reply::Shown {
        status,
        body,
        messages,
    };
    Ok(Some((reply, behind)))
}
