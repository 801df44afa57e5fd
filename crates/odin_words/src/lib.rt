//! The words of the program, read by `clap`.
#![tactic(auto)]

ghost use Rattle.std.specs.Prelude.{◌≡◌, ◌≢◌, IfOk, IfErr, IfSome, IfNone, [], map, string_bytes};
ghost use Rattle.std.specs.Option.{option_copied};
ghost use Rattle.clap.specs.Words.{fault_of, matches_of, first_of, rows_of, found_of, kind_of};
ghost use Rattle.odin_words.specs.Command.{command};
ghost use Rattle.odin_words.specs.Asked.{IsNumberUpTo, IsNoNumberUpTo, IsJobs, IsNoJobs, IsWork, IsNoWork, RowsAskFor, RowsAskForNothing, AsksFor, IsNotAccepted, work_of};

use clap::error::ErrorKind;
use clap::{Arg, ArgAction, ArgMatches, Command, Error};
use object_values::{Memory, UNIT_LIMIT};
use odin_bytes::read_number;
use std::alloc::Global;

pub mod laws;

/// How many tools may run at once, at most.
pub const MOST_JOBS: u64 = 64;

// The smallest number that a word may spell.
const LEAST: u64 = 1;

/// What the program is to do.
#[derive(Clone, Copy)]
pub enum Work<'a> {
    /// Serve the commands of the input over the graph in the file of this name.
    Serve(&'a str),
    /// Serve the load session of so many units.
    Load(u32),
}

/// What the words ask for: the work, and how many tools may run at once.
#[derive(Clone, Copy)]
pub struct Asked<'a> {
    pub work: Work<'a>,
    pub jobs: u64,
}

/// The words by the command.
fn matches<'a>(alloc: Global, words: &'a [String]) -> Result<ArgMatches<'a>, Error>
    ensures rows { IfOk result (λ m.
        rows_of (found_of m) ≡ matches_of command (map string_bytes words.entry.now)) }
    ensures taken { IfOk result (λ _. fault_of command (map string_bytes words.entry.now) ≡ []) }
    ensures refused { IfErr result (λ e. kind_of e ≢ ErrorKind.OutOfMemory →
        fault_of command (map string_bytes words.entry.now) ≢ []) }
{
    let command = Command::new(alloc, "odin")
        .disable_help_flag(true)
        .arg(Arg::new(alloc, "jobs").long("jobs").action(ArgAction::Set))?
        .arg(Arg::new(alloc, "load").long("load").action(ArgAction::Set))?
        .arg(Arg::new(alloc, "graph").action(ArgAction::Set))?;
    command.try_get_matches_from(words)
}

/// The first value of an option or a word of the command.
fn value_of<'a>(found: &ArgMatches<'a>, id: &str) -> Option<&'a str>
    ensures { let rows = rows_of (found_of found.now) in
        option_copied result ≡ first_of id.now rows }
{
    found.get_str(id)
}

/// The number up to `most` that a word spells.
fn read_up_to(most: u64, word: &str) -> Option<u64>
    ensures some { IfSome result (IsNumberUpTo most word.now) }
    ensures none { IfNone result (IsNoNumberUpTo most word.now) }
{
    let number = read_number(word.as_bytes())?;
    if number < LEAST || number > most {
        return None;
    }
    Some(number)
}

/// How many tools may run at once, by the value of `--jobs`.
fn jobs_by(value: Option<&str>) -> Option<u64>
    ensures some { IfSome result (IsJobs (option_copied value.entry)) }
    ensures none { IfNone result (IsNoJobs (option_copied value.entry)) }
{
    match value {
        Some(word) => read_up_to(MOST_JOBS, word),
        None => Some(1),
    }
}

/// The work, by the word GRAPH and the value of `--load`, of which exactly one is there.
fn work_by<'a>(graph: Option<&'a str>, load: Option<&'a str>) -> Option<Work<'a>>
    ensures some { let name = option_copied graph.entry in let word = option_copied load.entry in
        IfSome result (λ work. IsWork name word (work_of work)) }
    ensures none { let name = option_copied graph.entry in let word = option_copied load.entry in
        IfNone result (IsNoWork name word) }
{
    match graph {
        Some(name) => match load {
            None => Some(Work::Serve(name)),
            Some(_) => None,
        },
        None => Some(Work::Load(read_up_to(UNIT_LIMIT as u64, load?)? as u32)),
    }
}

/// What the values ask for, where the words were taken.
fn asked_of<'a>(found: &ArgMatches<'a>) -> Option<Asked<'a>>
    ensures some { IfSome result (λ asked.
        RowsAskFor (rows_of (found_of found.now)) (work_of asked.work) asked.jobs) }
    ensures none { IfNone result (RowsAskForNothing (rows_of (found_of found.now))) }
{
    let work = work_by(value_of(found, "graph"), value_of(found, "load"))?;
    let jobs = jobs_by(value_of(found, "jobs"))?;
    Some(Asked { work, jobs })
}

/// What the words ask for, of which the first is the program's name. `None` is said where they are not accepted.
pub fn read_words<'a>(alloc: Global, words: &'a [String]) -> Result<Option<Asked<'a>>, Memory>
    ensures asked { IfOk result (λ found. IfSome found (λ asked.
        AsksFor (map string_bytes words.entry.now) (work_of asked.work) asked.jobs)) }
    ensures none { IfOk result (λ found. IfNone found
        (IsNotAccepted (map string_bytes words.entry.now))) }
{
    match matches(alloc, words) {
        Ok(found) => Ok(asked_of(&found)),
        Err(error) => match error.kind() {
            ErrorKind::OutOfMemory => Err(Memory),
            _ => Ok(None),
        },
    }
}
