// The reply that shows an object, with its messages.
ghost use Rattle.std.specs.Prelude.{◌≡◌, ◌++◌, ◌∷◌, []};
ghost use Rattle.std.specs.List.{flat_map};
ghost use Rattle.meaning_texts.specs.Escapes.{escaped};
ghost use Rattle.meaning_texts.specs.Lines.{with_lf};
ghost use Rattle.meaning_commands.specs.Replies.{status_word, part_text, body_text, message_text, messages_text, object_text};
ghost use Rattle.odin_commands.specs.Writing.{AppendsText};

use crate::lines::{write_counted, write_line, write_lines};
use object_values::{Bytes, Memory, Message, Part, ShownBody, Status};
use odin_bytes::escape;

fn word_of(status: Status) -> &'static [u8]
    ensures { result.now ≡ status_word status }
{
    match status {
        Status::Ok => b"ok",
        Status::Warning => b"warning",
        Status::Error => b"error",
        Status::Abort => b"abort",
    }
}

fn write_part(part: &Part, out: &mut Bytes) -> Result<(), Memory>
    ensures { AppendsText result out.old out.new (part_text part.now) }
{
    write_counted(part.name.as_slice(), part.body.len() as u64, out)?;
    write_line(part.body.as_slice(), out)
}

fn write_parts(parts: &[Part], out: &mut Bytes) -> Result<(), Memory>
    ensures { AppendsText result out.old out.new (flat_map part_text parts.now) }
{
    for part in parts {
        write_part(part, out)?;
    }
    Ok(())
}

fn write_body(body: &ShownBody, out: &mut Bytes) -> Result<(), Memory>
    ensures { AppendsText result out.old out.new (body_text body.now) }
{
    match body {
        ShownBody::Nothing => write_counted(b"none", 0, out),
        ShownBody::Simple(text) => {
            write_counted(b"simple", text.len() as u64, out)?;
            write_line(text.as_slice(), out)
        }
        ShownBody::List(lines) => write_lines(b"list", lines.as_slice(), out),
        ShownBody::Compound(parts) => {
            write_counted(b"compound", parts.len() as u64, out)?;
            write_parts(parts.as_slice(), out)
        }
    }
}

// A word and the space after it.
fn write_word(word: &[u8], out: &mut Bytes) -> Result<(), Memory>
    ensures { AppendsText result out.old out.new (word.now ++ 32 ∷ []) }
{
    out.extend_from_slice(word)?;
    out.push(b' ')
}

// An escaped text and LF.
fn write_escaped(text: &[u8], out: &mut Bytes) -> Result<(), Memory>
    ensures { AppendsText result out.old out.new (with_lf (escaped text.now)) }
{
    escape(text, out)?;
    out.push(b'\n')
}

fn write_message(message: &Message, out: &mut Bytes) -> Result<(), Memory>
    ensures { AppendsText result out.old out.new (message_text message.now) }
{
    write_word(word_of(message.level), out)?;
    write_word(message.label.as_slice(), out)?;
    write_escaped(message.text.as_slice(), out)
}

/// Adds a line for each message at the end: its level, its label and its escaped text. Where memory is wanted, it leaves what it began.
pub fn write_each_message(messages: &[Message], out: &mut Bytes) -> Result<(), Memory>
    ensures { AppendsText result out.old out.new (flat_map message_text messages.now) }
{
    for message in messages {
        write_message(message, out)?;
    }
    Ok(())
}

fn write_messages(messages: &[Message], out: &mut Bytes) -> Result<(), Memory>
    ensures { AppendsText result out.old out.new (messages_text messages.now) }
{
    write_counted(b"messages", messages.len() as u64, out)?;
    write_each_message(messages, out)
}

/// The object, and then its messages.
pub(crate) fn write_object(
    status: Status,
    body: &ShownBody,
    messages: &[Message],
    out: &mut Bytes,
) -> Result<(), Memory>
    ensures { AppendsText result out.old out.new (object_text status body.now messages.now) }
{
    out.extend_from_slice(b"object ")?;
    write_word(word_of(status), out)?;
    write_body(body, out)?;
    write_messages(messages, out)
}
