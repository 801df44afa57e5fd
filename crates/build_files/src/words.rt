// The words of the program, read by `clap`.
ghost use Rattle.std.specs.Prelude.{◌≡◌, ◌≢◌, ◌↔◌, ◌⊎◌, IsTrue, codes, Some, IfOk, IfErr, IfSome, IfNone, [], map, string_bytes};
ghost use Rattle.std.specs.Option.{option_copied};
ghost use Rattle.clap.specs.Words.{fault_of, matches_of, first_of, rows_of, found_of, kind_of};
ghost use Rattle.build_files.specs.Command.{command, AsksForFile};

use clap::error::ErrorKind;
use clap::{Arg, ArgAction, ArgMatches, Command, Error};
use object_values::Memory;
use std::alloc::Global;

/// What the words ask for: where the object goes, whether its messages are shown, and whether with their labels.
#[derive(Clone, Copy)]
pub struct Asked<'a> {
    pub file: Option<&'a str>,
    pub messages: bool,
    pub labels: bool,
}

/// The words by the command.
fn matches<'a>(alloc: Global, words: &'a [String]) -> Result<ArgMatches<'a>, Error>
    ensures rows { IfOk result (λ m.
        rows_of (found_of m) ≡ matches_of command (map string_bytes words.entry.now)) }
    ensures taken { IfOk result (λ _. fault_of command (map string_bytes words.entry.now) ≡ []) }
    ensures refused { IfErr result (λ e. kind_of e ≢ ErrorKind.OutOfMemory →
        fault_of command (map string_bytes words.entry.now) ≢ []) }
{
    let command = Command::new(alloc, "odin_get")
        .disable_help_flag(true)
        .arg(Arg::new(alloc, "file").short('o').action(ArgAction::Set))?
        .arg(
            Arg::new(alloc, "messages")
                .short('m')
                .action(ArgAction::SetTrue),
        )?
        .arg(
            Arg::new(alloc, "labels")
                .short('l')
                .action(ArgAction::SetTrue),
        )?;
    command.try_get_matches_from(words)
}

/// The first value of an option or a flag of the command.
fn value_of<'a>(found: &ArgMatches<'a>, id: &str) -> Option<&'a str>
    ensures { let rows = rows_of (found_of found.now) in
        option_copied result ≡ first_of id.now rows }
{
    found.get_str(id)
}

/// Whether a flag stands among the words.
fn has_flag(found: &ArgMatches<'_>, id: &str) -> bool
    ensures { let rows = rows_of (found_of found.now) in
        IsTrue result ↔ (first_of id.now rows ≡ Some (codes "true")) }
{
    match value_of(found, id) {
        Some(word) => word == "true",
        None => false,
    }
}

/// Whether messages are asked for: by a flag of their own, or by that of their labels.
fn has_message_flag(found: &ArgMatches<'_>) -> bool
    ensures { let rows = rows_of (found_of found.now) in
        IsTrue result ↔ (first_of (codes "messages") rows ≡ Some (codes "true"))
        ⊎ (first_of (codes "labels") rows ≡ Some (codes "true")) }
{
    if has_flag(found, "messages") {
        return true;
    }
    has_flag(found, "labels")
}

/// What the words ask for, of which the first is the program's name. `None` is said where they are not accepted.
pub fn read_words<'a>(alloc: Global, words: &'a [String]) -> Result<Option<Asked<'a>>, Memory>
    ensures asked { IfOk result (λ found. IfSome found (λ asked.
        AsksForFile (map string_bytes words.entry.now) (option_copied asked.file)
        asked.messages asked.labels)) }
    ensures none { IfOk result (λ found. IfNone found
        (fault_of command (map string_bytes words.entry.now) ≢ [])) }
{
    match matches(alloc, words) {
        Ok(found) => Ok(Some(Asked {
            file: value_of(&found, "file"),
            messages: has_message_flag(&found),
            labels: has_flag(&found, "labels"),
        })),
        Err(error) => match error.kind() {
            ErrorKind::OutOfMemory => Err(Memory),
            _ => Ok(None),
        },
    }
}
