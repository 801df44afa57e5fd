//! Messages in the colours of their levels.
ghost use Rattle.std.specs.Prelude.{◌≡◌, ◌++◌, false, map, flat_map, IfOk, OnOk};
ghost use Rattle.build_files.specs.MessageLines.{firsts, message_line};
ghost use Rattle.build_view.specs.Colours as meaning;

use build_files::messages::lines_of;
use indexmap::IndexSet;
use object_values::{Bytes, Memory, Message, Status};
use std::alloc::Global;
use std::slice;

/// What ends a colour.
const PLAIN: &[u8] = b"\x1b[0m";

/// What begins the colour of a level.
fn colour_of(level: Status) -> &'static [u8]
    ensures { result.now ≡ meaning.colour_of level }
{
    match level {
        Status::Ok => b"",
        Status::Warning => b"\x1b[33m",
        Status::Error | Status::Abort => b"\x1b[31m",
    }
}

/// A line in the colour of its level, with LF.
pub fn painted(alloc: Global, level: Status, line: &[u8]) -> Result<Bytes, Memory>
    ensures { IfOk result (λ text. text ≡ meaning.painted level line.now) }
{
    let mut text = Bytes::from_slice(alloc, colour_of(level))?;
    text.extend_from_slice(line)?;
    text.extend_from_slice(PLAIN)?;
    text.push(b'\n')?;
    Ok(text)
}

/// The line of a message, without LF.
fn line_of(alloc: Global, message: &Message) -> Result<Bytes, Memory>
    ensures { IfOk result (λ line. line ≡ message_line false message.now) }
{
    let mut line = lines_of(alloc, slice::from_ref(message), false)?;
    line.truncate(line.len().saturating_sub(1));
    Ok(line)
}

/// The line of a message in its colour.
fn painted_message(alloc: Global, message: &Message) -> Result<Bytes, Memory>
    ensures { IfOk result (λ text. text ≡ meaning.painted_message message.now) }
{
    let line = line_of(alloc, message)?;
    painted(alloc, message.level, line.as_slice())
}

/// The lines, each once: a set, since messages are up to 1,000 of each object and lines may be long.
fn first_lines(alloc: Global, messages: &[Message]) -> Result<IndexSet<Bytes>, Memory>
    ensures { IfOk result (λ lines.
        lines.keys ≡ firsts (map meaning.painted_message messages.now)) }
{
    let mut lines = IndexSet::new(alloc);
    for message in messages {
        lines.insert(painted_message(alloc, message)?)?;
    }
    Ok(lines)
}

/// Adds lines at the end. Where memory is wanted, it leaves what it began.
fn write_lines(lines: &[Bytes], out: &mut Bytes) -> Result<(), Memory>
    ensures { OnOk result (out.new ≡ out.old ++ flat_map (λ line. line) lines.now) }
{
    for line in lines {
        out.extend_from_slice(line.as_slice())?;
    }
    Ok(())
}

/// The messages, one a line, each line once, in the colours of their levels.
pub fn painted_messages(alloc: Global, messages: &[Message]) -> Result<Bytes, Memory>
    ensures { IfOk result (λ text. text ≡ meaning.painted_messages messages.now) }
{
    let mut text = Bytes::new(alloc);
    let lines = first_lines(alloc, messages)?;
    write_lines(lines.as_slice(), &mut text)?;
    Ok(text)
}
