// What is said after the first words of a reply.
ghost use Rattle.std.specs.Prelude.{◌++◌, IfOk};
ghost use Rattle.meaning_commands.specs.Replies.{reply_text};
ghost use Rattle.meaning_commands.specs.Formed.{IsFormed};
ghost use Rattle.odin_commands.specs.Reading.{ReadsFront};
ghost use Rattle.odin_commands.specs.Verbs.{alone_word, numbered_word, named_word, identified_word, measured_word, listed_word, word_of};

use crate::items::read_counted;
use crate::shown::read_object;
use crate::sizes::cut_number;
use crate::verbs::{Alone, Identified, Listed, Measured, Named, Numbered, Verb};
use object_values::{Bytes, Memory, Reply};
use odin_bytes::{cut_at, is_id, is_name};
use std::alloc::Global;

fn read_alone(verb: Alone, text: &[u8]) -> Option<(Reply, &[u8])>
    ensures { ReadsFront reply_text IsFormed (alone_word verb ++ text.now) result }
{
    let behind = text.strip_prefix(b"\n")?;
    Some((verb.reply(), behind))
}

fn read_numbered(verb: Numbered, text: &[u8]) -> Option<(Reply, &[u8])>
    ensures { ReadsFront reply_text IsFormed (numbered_word verb ++ text.now) result }
{
    let (number, behind) = cut_number(text)?;
    Some((verb.reply(number), behind))
}

fn read_named(alloc: Global, verb: Named, text: &[u8]) -> Result<Option<(Reply, &[u8])>, Memory>
    ensures { IfOk result (ReadsFront reply_text IsFormed (named_word verb ++ text.now)) }
{
    let Some((name, behind)) = cut_at(b'\n', text) else {
        return Ok(None);
    };
    if !is_name(name) {
        return Ok(None);
    }
    Ok(Some((verb.reply(Bytes::from_slice(alloc, name)?), behind)))
}

fn read_identified(
    alloc: Global,
    verb: Identified,
    text: &[u8],
) -> Result<Option<(Reply, &[u8])>, Memory>
    ensures { IfOk result (ReadsFront reply_text IsFormed (identified_word verb ++ text.now)) }
{
    let Some((name, behind)) = cut_at(b'\n', text) else {
        return Ok(None);
    };
    if !is_id(name) {
        return Ok(None);
    }
    Ok(Some((verb.reply(Bytes::from_slice(alloc, name)?), behind)))
}

fn read_measured(
    alloc: Global,
    verb: Measured,
    text: &[u8],
) -> Result<Option<(Reply, &[u8])>, Memory>
    ensures { IfOk result (ReadsFront reply_text IsFormed (measured_word verb ++ text.now)) }
{
    let Some((name, rest)) = cut_at(b' ', text) else {
        return Ok(None);
    };
    if !is_name(name) {
        return Ok(None);
    }
    let Some((count, behind)) = cut_number(rest) else {
        return Ok(None);
    };
    Ok(Some((verb.reply(Bytes::from_slice(alloc, name)?, count), behind)))
}

fn read_listed(alloc: Global, verb: Listed, text: &[u8]) -> Result<Option<(Reply, &[u8])>, Memory>
    ensures { IfOk result (ReadsFront reply_text IsFormed (listed_word verb ++ text.now)) }
{
    match read_counted(alloc, text)? {
        Some((lines, behind)) => Ok(Some((verb.reply(lines), behind))),
        None => Ok(None),
    }
}

/// The reply that begins with these words, by the text after them.
pub(crate) fn read_said(
    alloc: Global,
    verb: Verb,
    text: &[u8],
) -> Result<Option<(Reply, &[u8])>, Memory>
    ensures { IfOk result (ReadsFront reply_text IsFormed (word_of verb ++ text.now)) }
{
    match verb {
        Verb::Alone(verb) => Ok(read_alone(verb, text)),
        Verb::Numbered(verb) => Ok(read_numbered(verb, text)),
        Verb::Named(verb) => read_named(alloc, verb, text),
        Verb::Identified(verb) => read_identified(alloc, verb, text),
        Verb::Measured(verb) => read_measured(alloc, verb, text),
        Verb::Listed(verb) => read_listed(alloc, verb, text),
        Verb::Object => read_object(alloc, text),
    }
}
