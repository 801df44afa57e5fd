// Messages as a person is shown them.
ghost use Rattle.std.specs.Prelude.{◌≡◌, ◌++◌, map, flat_map, IfOk, OnOk};
ghost use Rattle.meaning_texts.specs.Lines.{with_lf};
ghost use Rattle.meaning_commands.specs.Replies.{status_word};
ghost use Rattle.build_files.specs.MessageLines as meaning;

use indexmap::IndexSet;
use object_values::{Bytes, Memory, Message, Status};
use shown_texts::shown::write_shown;
use std::alloc::Global;

fn word_of(status: Status) -> &'static [u8]
    ensures { result.now ≡ status_word status }
{
    match status {
        Status::Ok => b"ok",
        Status::Warning => b"warning",
        Status::Error => b"error",
        Status::Abort => b"abort",
    }
}

/// Adds what stands before a text with its label. Where memory is wanted, it leaves what it began.
fn write_label(message: &Message, out: &mut Bytes) -> Result<(), Memory>
    ensures { OnOk result (out.new ≡ out.old ++ meaning.label_words message.now) }
{
    out.extend_from_slice(word_of(message.level))?;
    out.push(b' ')?;
    write_shown(message.label.as_slice(), out)?;
    out.push(b' ')
}

fn reaches_colon(text: &[u8]) -> bool
    ensures { result ≡ meaning.reaches_colon text.now }
{
    for byte in text {
        match *byte {
            b':' => return true,
            b' ' => return false,
            _ => {}
        }
    }
    false
}

fn begins_with_path(text: &[u8]) -> bool
    ensures { result ≡ meaning.begins_with_path text.now }
{
    match text.first() {
        None | Some(b':' | b'/') => false,
        Some(_) => reaches_colon(text),
    }
}

/// The text without a `./` before a path.
fn without_here(text: &[u8]) -> &[u8]
    ensures { result.now ≡ meaning.without_here text.now }
{
    match text {
        [b'.', b'/', path @ ..] if begins_with_path(path) => path,
        _ => text,
    }
}

/// The line of a message, without LF.
fn line_of(alloc: Global, message: &Message, labelled: bool) -> Result<Bytes, Memory>
    ensures { IfOk result (λ line. line ≡ meaning.message_line labelled message.now) }
{
    let text = message.text.as_slice();
    let mut line = Bytes::new(alloc);
    if labelled {
        write_label(message, &mut line)?;
        write_shown(text, &mut line)?;
    } else {
        write_shown(without_here(text), &mut line)?;
    }
    Ok(line)
}

/// The lines, each once: a set, since messages are up to 1,000 of each object and lines may be long.
fn first_lines(
    alloc: Global,
    messages: &[Message],
    labelled: bool,
) -> Result<IndexSet<Bytes>, Memory>
    ensures { IfOk result (λ lines.
        lines.keys ≡ meaning.firsts (map (meaning.message_line labelled) messages.now)) }
{
    let mut lines = IndexSet::new(alloc);
    for message in messages {
        lines.insert(line_of(alloc, message, labelled)?)?;
    }
    Ok(lines)
}

/// Adds lines at the end. Where memory is wanted, it leaves what it began.
fn write_lines(lines: &[Bytes], out: &mut Bytes) -> Result<(), Memory>
    ensures { OnOk result (out.new ≡ out.old ++ flat_map with_lf lines.now) }
{
    for line in lines {
        out.extend_from_slice(line.as_slice())?;
        out.push(b'\n')?;
    }
    Ok(())
}

/// The messages, one a line.
pub fn lines_of(alloc: Global, messages: &[Message], labelled: bool) -> Result<Bytes, Memory>
    ensures { IfOk result (λ text. text ≡ meaning.message_lines labelled messages.now) }
{
    let mut text = Bytes::new(alloc);
    let lines = first_lines(alloc, messages, labelled)?;
    write_lines(lines.as_slice(), &mut text)?;
    Ok(text)
}
