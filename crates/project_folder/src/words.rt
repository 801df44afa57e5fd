//! The words of the program, read by `clap`.
ghost use Rattle.std.specs.Prelude.{◌≡◌, ◌↔◌, IsTrue, false, Some, codes, [], IfOk, IfSome, IfNone, map, string_bytes, unwrap_or};
ghost use Rattle.std.specs.Option.{option_copied};
ghost use Rattle.clap.specs.Words.{FailsBy, all_of, app_of, fault_of, first_of, found_of, matches_of, rows_of, rule_of};
ghost use Rattle.project_folder.specs.Command.{command, flag_rule, long_flag_rule, long_rule, option_rule, tells, targets, working, AsksToBuild, AsksForNone, IsCount, IsNoCount, IsColours, IsNoColours, RowsAskToSee};

use clap::{Arg, ArgAction, ArgMatches, Command, Error};
use odin_bytes::read_number;
use std::alloc::{AllocError, Global};

/// How many tools may run at once, at most.
const MOST_JOBS: u64 = 64;

/// The words of the program, as they are shown.
pub const USAGE: &str =
    "odin-build [-C DIR] [-j N] [-n] [-q] [-v] [--why] [--color WHEN] [--trace FILE] [--page FILE] [TARGET]..";

/// When messages have colours.
#[derive(Clone, Copy, PartialEq, Eq)]
pub enum Colours {
    /// On a terminal.
    Auto,
    Always,
    Never,
}

/// What is told beside messages: no progress, also the size of the store, also why each tool is run; when messages have colours; and the files of the trace
/// and of the page.
#[derive(Clone, Copy)]
pub struct View<'a> {
    pub quiet: bool,
    pub verbose: bool,
    pub why: bool,
    pub colours: Colours,
    pub trace: Option<&'a str>,
    pub page: Option<&'a str>,
}

/// What the words ask for: the folder of the project, how many tools may run at once, whether it is only told what would be asked, what is told of the
/// build, and the targets.
#[derive(Drop)]
pub struct Asked<'a> {
    pub folder: Option<&'a str>,
    pub jobs: Option<u32>,
    pub tells: bool,
    pub view: View<'a>,
    pub targets: Vec<&'a str>,
}

/// An option of one letter with one value.
fn option<'a>(alloc: Global, id: &'a str, short: char, help: &'a str) -> Arg<'a>
    ensures rule { rule_of result ≡ option_rule id.entry.now short }
    ensures local { result.global ≡ false }
{
    Arg::new(alloc, id)
        .short(short)
        .help(help)
        .action(ArgAction::Set)
}

/// The flag by which it is only told what would be asked.
fn tells_flag<'a>(alloc: Global) -> Arg<'a>
    ensures rule { rule_of result ≡ tells }
    ensures local { result.global ≡ false }
{
    Arg::new(alloc, "tells")
        .short('n')
        .help("only tell what would be asked")
        .action(ArgAction::SetTrue)
}

/// A flag of one letter and of the word that it is known by.
fn flag<'a>(alloc: Global, id: &'a str, short: char, help: &'a str) -> Arg<'a>
    ensures rule { rule_of result ≡ flag_rule id.entry.now short }
    ensures local { result.global ≡ false }
{
    Arg::new(alloc, id)
        .short(short)
        .long(id)
        .help(help)
        .action(ArgAction::SetTrue)
}

/// A flag of the word that it is known by, and of no letter.
fn long_flag<'a>(alloc: Global, id: &'a str, help: &'a str) -> Arg<'a>
    ensures rule { rule_of result ≡ long_flag_rule id.entry.now }
    ensures local { result.global ≡ false }
{
    Arg::new(alloc, id)
        .long(id)
        .help(help)
        .action(ArgAction::SetTrue)
}

/// An option of a word with one value.
fn long_option<'a>(alloc: Global, id: &'a str, help: &'a str) -> Arg<'a>
    ensures rule { rule_of result ≡ long_rule id.entry.now }
    ensures local { result.global ≡ false }
{
    Arg::new(alloc, id)
        .long(id)
        .help(help)
        .action(ArgAction::Set)
}

/// The names of targets.
fn target_words<'a>(alloc: Global) -> Arg<'a>
    ensures rule { rule_of result ≡ targets }
    ensures local { result.global ≡ false }
{
    Arg::new(alloc, "targets")
        .help("the targets to build, in place of all")
        .num_args(1..)
        .action(ArgAction::Append)
}

/// The command without what is told beside messages.
fn bare_command<'a>(alloc: Global) -> Result<Command<'a>, AllocError>
    ensures { IfOk result (λ made. app_of made ≡ working) }
{
    Command::new(alloc, "odin-build")
        .about("Builds the targets of odin.toml from exactly the files that it lists.")
        .version("1")
        .override_usage(USAGE)
        .arg(option(
            alloc,
            "folder",
            'C',
            "the folder of the project, in place of this one",
        ))?
        .arg(option(
            alloc,
            "jobs",
            'j',
            "how many tools run at once, from 1 to 64, in place of one a processor",
        ))?
        .arg(tells_flag(alloc))
}

/// The words by the command.
fn matches<'a>(alloc: Global, words: &'a [String]) -> Result<ArgMatches<'a>, Error>
    ensures rows { IfOk result (λ m.
        rows_of (found_of m) ≡ matches_of command (map string_bytes words.entry.now)) }
    ensures kinds { FailsBy (fault_of command (map string_bytes words.entry.now)) result }
{
    let command = bare_command(alloc)?
        .arg(flag(alloc, "quiet", 'q', "tell no progress"))?
        .arg(flag(alloc, "verbose", 'v', "also tell the size of the store"))?
        .arg(long_flag(alloc, "why", "also tell why each tool is run"))?
        .arg(long_option(alloc, "color", "colours: auto, always or never"))?
        .arg(long_option(
            alloc,
            "trace",
            "the file that is to have when each tool ran",
        ))?
        .arg(long_option(
            alloc,
            "page",
            "the file that is to have a page about the build",
        ))?
        .arg(target_words(alloc))?;
    command.try_get_matches_from(words)
}

/// The values of the words.
fn targets_of<'a>(alloc: Global, found: &ArgMatches<'a>) -> Result<Vec<&'a str>, AllocError>
    ensures { let rows = rows_of (found_of found.now) in IfOk result (λ values.
        map (λ word. word.now) values.items ≡ unwrap_or (all_of (codes "targets") rows) []) }
{
    let mut values = Vec::new(alloc);
    let Some(words) = found.get_strs("targets") else {
        return Ok(values);
    };
    values.extend_from_slice(words)?;
    Ok(values)
}

/// The first value of an option or a flag of the command.
fn value_of<'a>(found: &ArgMatches<'a>, id: &str) -> Option<&'a str>
    ensures { let rows = rows_of (found_of found.now) in
        option_copied result ≡ first_of id.now rows }
{
    found.get_str(id)
}

/// Whether a flag stands.
fn has_flag(found: &ArgMatches<'_>, id: &str) -> bool
    ensures { let rows = rows_of (found_of found.now) in
        IsTrue result ↔ (first_of id.now rows ≡ Some (codes "true")) }
{
    match value_of(found, id) {
        Some(word) => word == "true",
        None => false,
    }
}

/// When messages have colours, by the value of `--color`.
fn colours_by(value: Option<&str>) -> Option<Colours>
    ensures some { IfSome result (IsColours (option_copied value.entry)) }
    ensures none { IfNone result (IsNoColours (option_copied value.entry)) }
{
    let Some(word) = value else {
        return Some(Colours::Auto);
    };
    match word {
        "auto" => Some(Colours::Auto),
        "always" => Some(Colours::Always),
        "never" => Some(Colours::Never),
        _ => None,
    }
}

/// What is told beside messages. `None` is said where the value of `--color` is none.
fn view_of<'a>(found: &ArgMatches<'a>) -> Option<View<'a>>
    ensures some { IfSome result (λ view. RowsAskToSee (rows_of (found_of found.now)) view.quiet
        view.verbose view.why view.colours
        (option_copied view.trace) (option_copied view.page)) }
    ensures none { IfNone result
        (IsNoColours (first_of (codes "color") (rows_of (found_of found.now)))) }
{
    let colours = colours_by(value_of(found, "color"))?;
    Some(View {
        quiet: has_flag(found, "quiet"),
        verbose: has_flag(found, "verbose"),
        why: has_flag(found, "why"),
        colours,
        trace: value_of(found, "trace"),
        page: value_of(found, "page"),
    })
}

/// The count from 1 to 64 that a word spells.
fn read_count(word: &str) -> Option<u32>
    ensures some { IfSome result (IsCount word.now) }
    ensures none { IfNone result (IsNoCount word.now) }
{
    let number = read_number(word.as_bytes())?;
    if number < 1 || number > MOST_JOBS {
        return None;
    }
    Some(number as u32)
}

/// What the words ask for, of which the first is the program's name. `None` is said where the value of `-j` is no count, or that of `--color` is none that
/// it has; an error that shows help or the version is none.
pub fn read_words<'a>(alloc: Global, words: &'a [String]) -> Result<Option<Asked<'a>>, Error>
    ensures asked { IfOk result (λ found. IfSome found (λ asked.
        AsksToBuild (map string_bytes words.entry.now) (option_copied asked.folder) asked.jobs
        asked.tells (map (λ word. word.now) asked.targets.items))) }
    ensures view { IfOk result (λ found. IfSome found (λ asked.
        RowsAskToSee (matches_of command (map string_bytes words.entry.now)) asked.view.quiet
        asked.view.verbose asked.view.why asked.view.colours (option_copied asked.view.trace)
        (option_copied asked.view.page))) }
    ensures none { IfOk result (λ found. IfNone found
        (AsksForNone (map string_bytes words.entry.now))) }
    ensures kinds { FailsBy (fault_of command (map string_bytes words.entry.now)) result }
{
    let found = matches(alloc, words)?;
    let jobs = match value_of(&found, "jobs") {
        Some(word) => match read_count(word) {
            Some(count) => Some(count),
            None => return Ok(None),
        },
        None => None,
    };
    let Some(view) = view_of(&found) else {
        return Ok(None);
    };
    let targets = targets_of(alloc, &found)?;
    Ok(Some(Asked {
        folder: value_of(&found, "folder"),
        jobs,
        tells: has_flag(&found, "tells"),
        view,
        targets,
    }))
}
