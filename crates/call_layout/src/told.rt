// What the file `call` tells of a call.
ghost use Rattle.std.specs.Prelude.{◌≡◌, Some, None, if◌then◌else◌, IfOk, option_map};
ghost use Rattle.std.specs.Option.{option_copied};
ghost use Rattle.call_layout.specs.Told as meaning;

use object_values::{Bytes, Memory, Seq};
use odin_bytes::{cut_at, first_line, write_number};
use std::alloc::Global;

/// A part of a call. Part K, counted from 1, is the file `iK`, where it is there.
pub struct PartTold {
    pub is_there: bool,
    pub label: Bytes,
}

// By hand: a drop is one call, where a derived one is opened field by field at each early return.
impl Drop for PartTold {
    fn drop(self) {
        let PartTold { is_there: _, label } = self;
        drop(label);
    }
}

/// The parts of a call, and the files of its outputs.
pub struct CallTold {
    pub parts: Seq<PartTold>,
    pub outs: Seq<Bytes>,
}

// By hand, for the same reason.
impl Drop for CallTold {
    fn drop(self) {
        let CallTold { parts, outs } = self;
        drop(parts);
        drop(outs);
    }
}

/// What stands after the first bytes of a line, where these are its first.
fn after_front<'a>(front: &[u8], line: &'a [u8]) -> Option<&'a [u8]>
    ensures { option_copied result ≡ meaning.after_front front.now line.now }
{
    line.strip_prefix(front)
}

/// What stands before the first space, and what stands after it.
fn cut_word(text: &[u8]) -> Option<(&[u8], &[u8])>
    ensures { option_map (λ cut. (cut.0.now, cut.1.now)) result ≡ meaning.cut_word text.now }
{
    cut_at(b' ', text)
}

/// Whether the part of this number is there, by the word for its file. `None` is said where that is no word for it.
fn is_there(alloc: Global, number: u64, file: &[u8]) -> Result<Option<bool>, Memory>
    ensures { IfOk result (λ says. says ≡ meaning.is_there number file.now) }
{
    if file == b"-".as_slice() {
        return Ok(Some(false));
    }
    let mut name = Bytes::new(alloc);
    name.push(b'i')?;
    write_number(number, &mut name)?;
    if name.as_slice() == file {
        Ok(Some(true))
    } else {
        Ok(None)
    }
}

/// The part of a line, by what stands after its first word. The slot is passed over.
fn read_part(alloc: Global, number: u64, text: &[u8]) -> Result<Option<PartTold>, Memory>
    ensures { IfOk result (λ part. part ≡ meaning.read_part number text.now) }
{
    let Some((_, words)) = cut_word(text) else {
        return Ok(None);
    };
    let Some((file, label)) = cut_word(words) else {
        return Ok(None);
    };
    let Some(is_there) = is_there(alloc, number, file)? else {
        return Ok(None);
    };
    let label = Bytes::from_slice(alloc, label)?;
    Ok(Some(PartTold { is_there, label }))
}

/// Takes a line on a part in, by what stands after its first word. Says whether it is one.
fn put_part(alloc: Global, text: &[u8], told: &mut CallTold) -> Result<bool, Memory>
    ensures { IfOk result (λ fits. meaning.put_part text.now told.old
        ≡ (if fits then Some told.new else None)) }
{
    let number = told.parts.as_slice().len() as u64 + 1;
    match read_part(alloc, number, text)? {
        Some(part) => {
            told.parts.push(part)?;
            Ok(true)
        }
        None => Ok(false),
    }
}

/// Takes a line in. Says whether it is one of such a file.
fn put_line(alloc: Global, line: &[u8], told: &mut CallTold) -> Result<bool, Memory>
    ensures { IfOk result (λ fits. meaning.put_line line.now told.old
        ≡ (if fits then Some told.new else None)) }
{
    if let Some(text) = after_front(b"part ", line) {
        return put_part(alloc, text, told);
    }
    if let Some(name) = after_front(b"out ", line) {
        told.outs.push(Bytes::from_slice(alloc, name)?)?;
    }
    Ok(true)
}

/// What the lines after the first one tell.
fn read_lines(alloc: Global, text: &[u8]) -> Result<Option<CallTold>, Memory>
    ensures { IfOk result (λ told. told ≡ meaning.read_text meaning.nothing_told text.now) }
{
    let mut told = CallTold {
        parts: Seq::new(alloc),
        outs: Seq::new(alloc),
    };
    let mut rest = text;
    'lines: while let Some((line, behind)) = first_line(rest) {
        if !put_line(alloc, line, &mut told)? {
            return Ok(None);
        }
        rest = behind;
    }
    if rest.is_empty() {
        Ok(Some(told))
    } else {
        Ok(None)
    }
}

/// What the text of a file `call` tells. `None` is said where it is none that this program knows.
pub fn read_call(alloc: Global, text: &[u8]) -> Result<Option<CallTold>, Memory>
    ensures { IfOk result (λ told. told ≡ meaning.read_call text.now) }
{
    match after_front(b"odin 1\n", text) {
        Some(lines) => read_lines(alloc, lines),
        None => Ok(None),
    }
}
