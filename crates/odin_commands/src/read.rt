// The command of a line.
ghost use Rattle.std.specs.Prelude.{◌≡◌, IfOk};
ghost use Rattle.meaning_commands.specs.Commands.{Spells};
ghost use Rattle.meaning_commands.specs.Reading.{put_words, formed_command};
ghost use Rattle.odin_commands.specs.Arguments.{argument_of, take_command, drop_command, single_word};

use object_values::{Bytes, COMMAND_LIMIT, Memory};
use odin_bytes::{Command, Name, cut_at, read_name, read_number};
use std::alloc::Global;

/// What stands in the place of a name.
#[derive(Drop)]
pub(crate) enum Argument {
    Name(Name),
    /// A word that is no name.
    Other,
    /// Nothing, or something with a space in it.
    NoWord,
}

fn read_argument(alloc: Global, word: &[u8]) -> Result<Argument, Memory>
    ensures { IfOk result (λ argument. argument ≡ argument_of word.now) }
{
    if word.is_empty() || cut_at(b' ', word).is_some() {
        return Ok(Argument::NoWord);
    }
    match read_name(alloc, word)? {
        Some(name) => Ok(Argument::Name(name)),
        None => Ok(Argument::Other),
    }
}

// The command after `put `.
fn read_put(alloc: Global, rest: &[u8]) -> Result<Option<Command>, Memory>
    ensures { IfOk result (λ command. command ≡ put_words rest.now) }
{
    let Some((word, digits)) = cut_at(b' ', rest) else {
        return Ok(None);
    };
    let Some(count) = read_number(digits) else {
        return Ok(None);
    };
    match read_argument(alloc, word)? {
        Argument::Name(name) => Ok(Some(Command::Put(name, count))),
        Argument::Other => Ok(Some(Command::BadName(count))),
        Argument::NoWord => Ok(None),
    }
}

// The command after `take `.
fn read_take(alloc: Global, word: &[u8]) -> Result<Option<Command>, Memory>
    ensures { IfOk result (λ command. command ≡ take_command word.now) }
{
    match read_argument(alloc, word)? {
        Argument::Name(name) => Ok(Some(Command::Take(name))),
        Argument::Other => Ok(Some(Command::BadName(0))),
        Argument::NoWord => Ok(None),
    }
}

// The command after `drop `.
fn read_drop(alloc: Global, word: &[u8]) -> Result<Option<Command>, Memory>
    ensures { IfOk result (λ command. command ≡ drop_command word.now) }
{
    match read_argument(alloc, word)? {
        Argument::Name(name) => Ok(Some(Command::Remove(name))),
        Argument::Other => Ok(Some(Command::BadName(0))),
        Argument::NoWord => Ok(None),
    }
}

// The command that is a word alone.
fn read_single(line: &[u8]) -> Option<Command>
    ensures { result ≡ single_word line.now }
{
    if line == b"sources".as_slice() {
        return Some(Command::Sources);
    }
    if line == b"kept".as_slice() {
        return Some(Command::Kept);
    }
    if line == b"quit".as_slice() {
        return Some(Command::Quit);
    }
    None
}

// The command whose shown words the line has.
fn read_formed(alloc: Global, line: &[u8]) -> Result<Option<Command>, Memory>
    ensures { IfOk result (λ command. command ≡ formed_command line.now) }
{
    if let Some(rest) = line.strip_prefix(b"put ") {
        return read_put(alloc, rest);
    }
    if let Some(word) = line.strip_prefix(b"take ") {
        return read_take(alloc, word);
    }
    if let Some(word) = line.strip_prefix(b"drop ") {
        return read_drop(alloc, word);
    }
    if let Some(text) = line.strip_prefix(b"ask ") {
        return Ok(Some(Command::Ask(Bytes::from_slice(alloc, text)?)));
    }
    if let Some(text) = line.strip_prefix(b"plan ") {
        return Ok(Some(Command::Plan(Bytes::from_slice(alloc, text)?)));
    }
    Ok(read_single(line))
}

/// The command that a line is, without its LF and one CR before it.
pub fn read_command(alloc: Global, line: &[u8]) -> Result<Command, Memory>
    ensures { IfOk result (Spells line.now) }
{
    if line.is_empty() {
        return Ok(Command::Nothing);
    }
    if line.len() > COMMAND_LIMIT {
        return Ok(Command::Bad);
    }
    match read_formed(alloc, line)? {
        Some(command) => Ok(command),
        None => Ok(Command::Bad),
    }
}
