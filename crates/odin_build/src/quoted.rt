// The lines of the project's files that messages begin with.
use build_view::pages::MessageRow;
use build_view::places::{PageMessage, Place};
use object_values::{Bytes, Memory, Seq};
use project_folder::leads_below;
use std::alloc::Global;
use std::{fs, str};

/// How much of a line is shown at most, in bytes.
const LONGEST: usize = 240;

/// A file that was read, since the messages of one file stand one after another.
#[derive(Drop)]
struct Read {
    path: Bytes,
    text: Vec<u8>,
}

/// The text of a file below the project's folder, and no text where it can't be read. What a tool says of other files isn't looked up.
fn text_at(rt: &HostRuntime, path: &[u8]) -> Vec<u8> {
    if leads_below(path) {
        if let Ok(path) = str::from_utf8(path) {
            if let Ok(text) = fs::read(rt, path) {
                return text;
            }
        }
    }
    Vec::new(rt.alloc())
}

/// The line of a number, from 1, without the white space around it.
fn line_at(text: &[u8], number: u64) -> &[u8] {
    let place = number.saturating_sub(1) as usize;
    match text.split(|byte| *byte == b'\n').nth(place) {
        Some(line) => {
            let line = line.trim_ascii();
            &line[..line.len().min(LONGEST)]
        }
        None => b"",
    }
}

/// The line of a place, of a file that is read where it isn't the one that was read last.
fn line_of(
    rt: &HostRuntime,
    place: Option<&Place>,
    last: &mut Option<Read>,
) -> Result<Bytes, Memory> {
    let alloc = rt.alloc();
    let Some(place) = place else {
        return Ok(Bytes::new(alloc));
    };
    let path = place.path.as_slice();
    let read = match last.take() {
        Some(read) if read.path.as_slice() == path => read,
        _ => Read {
            path: Bytes::from_slice(alloc, path)?,
            text: text_at(rt, path),
        },
    };
    let line = Bytes::from_slice(alloc, line_at(read.text.as_slice(), place.line))?;
    *last = Some(read);
    Ok(line)
}

/// Messages with the lines that they begin with.
pub(crate) fn quoted_rows(
    rt: &HostRuntime,
    messages: Seq<PageMessage>,
) -> Result<Seq<MessageRow>, Memory> {
    let mut rows = Seq::new(rt.alloc());
    let mut last = None;
    for message in messages.into_vec() {
        let line = line_of(rt, message.place.as_ref(), &mut last)?;
        rows.push(MessageRow { message, line })?;
    }
    Ok(rows)
}
