// Items after their count: lines, parts and messages.
ghost use Rattle.std.specs.Prelude.{◌≡◌, ◌≢◌, ℕ, List, IfOk, IfSome, IfNone};
ghost use Rattle.object_values.specs.declared.messages.Status.{Status};
ghost use Rattle.odin_bytes.specs.Spellings.{AreBytes};
ghost use Rattle.meaning_texts.specs.Lines.{HasNoLf, with_lf};
ghost use Rattle.meaning_commands.specs.Replies.{status_word, part_text, message_text};
ghost use Rattle.meaning_commands.specs.Formed.{AreFormed, IsFormedPart, IsFormedMessage, IsTold};
ghost use Rattle.odin_commands.specs.Reading.{ReadsFront, ReadsFrontItems, counted_items, SpellsMessage};

use crate::sizes::{cut_body, cut_number};
use object_values::{Bytes, Memory, Message, Part, Seq, Status, Text};
use odin_bytes::{cut_at, is_id, unescape};
use std::alloc::Global;

/// What stands after a count, one item after another.
pub(crate) trait Item: Sized + Drop {
    ghost spelled: { Self → List ℕ };

    ghost IsGood: { Self → Type 0 };

    /// The first item of a text, and what stands after it.
    fn read(alloc: Global, text: &[u8]) -> Result<Option<(Self, &[u8])>, Memory>
        ensures { IfOk result (ReadsFront spelled IsGood text.now) };
}

fn read_items<T: Item>(
    alloc: Global,
    text: &[u8],
    count: u64,
) -> Result<Option<(Seq<T>, &[u8])>, Memory>
    requires { IsTold T.spelled T.IsGood }
    ensures { IfOk result (ReadsFrontItems T.spelled T.IsGood count text.now) }
{
    let mut items = Seq::new(alloc);
    let mut rest = text;
    'items: for _ in 0..count {
        let Some((item, behind)) = T::read(alloc, rest)? else {
            return Ok(None);
        };
        items.push(item)?;
        rest = behind;
    }
    Ok(Some((items, rest)))
}

/// The items of a text that begins with the line of their count.
pub(crate) fn read_counted<T: Item>(
    alloc: Global,
    text: &[u8],
) -> Result<Option<(Seq<T>, &[u8])>, Memory>
    requires { IsTold T.spelled T.IsGood }
    ensures { IfOk result (ReadsFront (counted_items T.spelled) (AreFormed T.IsGood) text.now) }
{
    let Some((count, rest)) = cut_number(text) else {
        return Ok(None);
    };
    read_items(alloc, rest, count)
}

/// A line.
impl Item for Bytes {
    ghost spelled = { with_lf };

    ghost IsGood = { HasNoLf };

    fn read(alloc: Global, text: &[u8]) -> Result<Option<(Self, &[u8])>, Memory> {
        let Some((line, behind)) = cut_at(b'\n', text) else {
            return Ok(None);
        };
        Ok(Some((Bytes::from_slice(alloc, line)?, behind)))
    }
}

impl Item for Part {
    ghost spelled = { part_text };

    ghost IsGood = { IsFormedPart };

    fn read(alloc: Global, text: &[u8]) -> Result<Option<(Self, &[u8])>, Memory> {
        let Some((name, rest)) = cut_at(b' ', text) else {
            return Ok(None);
        };
        if !is_id(name) {
            return Ok(None);
        }
        let Some((size, rest)) = cut_number(rest) else {
            return Ok(None);
        };
        let Some((body, behind)) = cut_body(rest, size) else {
            return Ok(None);
        };
        let name = Bytes::from_slice(alloc, name)?;
        let body = Text::of(Bytes::from_slice(alloc, body)?)?;
        Ok(Some((Part { name, body }, behind)))
    }
}

impl Item for Message {
    ghost spelled = { message_text };

    ghost IsGood = { IsFormedMessage };

    fn read(alloc: Global, text: &[u8]) -> Result<Option<(Self, &[u8])>, Memory> {
        let Some((line, behind)) = cut_at(b'\n', text) else {
            return Ok(None);
        };
        match read_message(alloc, line)? {
            Some(message) => Ok(Some((message, behind))),
            None => Ok(None),
        }
    }
}

/// The message of a line.
fn read_message(alloc: Global, line: &[u8]) -> Result<Option<Message>, Memory>
    requires { HasNoLf line.now }
    ensures { IfOk result (SpellsMessage line.now) }
{
    let Some((word, rest)) = cut_at(b' ', line) else {
        return Ok(None);
    };
    let Some(level) = status_of(word) else {
        return Ok(None);
    };
    let Some((label, spelling)) = cut_at(b' ', rest) else {
        return Ok(None);
    };
    let Some(text) = unescape(alloc, spelling)? else {
        return Ok(None);
    };
    holds_bytes(text.as_slice());
    let label = Text::of(Bytes::from_slice(alloc, label)?)?;
    let body = Text::of(text)?;
    Ok(Some(Message {
        label,
        level,
        text: body,
    }))
}

// What no clause of a `Seq` says.
fn holds_bytes(text: &[u8])
    ensures { AreBytes text.now }
{}

/// The status that a word is.
pub(crate) fn status_of(word: &[u8]) -> Option<Status>
    ensures some { IfSome result (λ status. word.now ≡ status_word status) }
    ensures none { IfNone result ((status : Status) → word.now ≢ status_word status) }
{
    if word == b"ok".as_slice() {
        return Some(Status::Ok);
    }
    if word == b"warning".as_slice() {
        return Some(Status::Warning);
    }
    if word == b"error".as_slice() {
        return Some(Status::Error);
    }
    if word == b"abort".as_slice() {
        return Some(Status::Abort);
    }
    None
}
