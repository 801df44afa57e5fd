// The words of the program, read by `clap`.
ghost use Rattle.std.specs.Prelude.{◌≡◌, codes, [], IfOk, map, string_bytes, unwrap_or};
ghost use Rattle.clap.specs.Words.{FailsBy, all_of, fault_of, found_of, matches_of, rows_of};
ghost use Rattle.call_layout.specs.Command.{command};

use clap::{Arg, ArgAction, ArgMatches, Command, Error};
use std::alloc::{AllocError, Global};

/// The words by the command.
fn matches<'a>(alloc: Global, words: &'a [String]) -> Result<ArgMatches<'a>, Error>
    ensures rows { IfOk result (λ m.
        rows_of (found_of m) ≡ matches_of command (map string_bytes words.entry.now)) }
    ensures kinds { FailsBy (fault_of command (map string_bytes words.entry.now)) result }
{
    let given = Arg::new(alloc, "words")
        .help("the label of the script, and the words that it is given")
        .num_args(1..)
        .trailing_var_arg(true)
        .required(true)
        .action(ArgAction::Append);
    let command = Command::new(alloc, "odin_lay")
        .about("Lays the parts of a call out by their labels, and runs the script of a label.")
        .version("1")
        .override_usage("odin_lay SCRIPT [WORD]..")
        .arg(given)?;
    command.try_get_matches_from(words)
}

/// The values of the words.
fn values_of<'a>(alloc: Global, found: &ArgMatches<'a>) -> Result<Vec<&'a str>, AllocError>
    ensures { let rows = rows_of (found_of found.now) in IfOk result (λ values.
        map (λ word. word.now) values.items ≡ unwrap_or (all_of (codes "words") rows) []) }
{
    let mut values = Vec::new(alloc);
    let Some(words) = found.get_strs("words") else {
        return Ok(values);
    };
    values.extend_from_slice(words)?;
    Ok(values)
}

/// The script's label, and the words that it is given: those after it, whatever they are. An error that shows help or the version is none.
pub fn read_words<'a>(alloc: Global, words: &'a [String]) -> Result<Vec<&'a str>, Error>
    ensures given { IfOk result (λ given. map (λ word. word.now) given.items ≡
        unwrap_or (all_of (codes "words")
        (matches_of command (map string_bytes words.entry.now))) []) }
    ensures kinds { FailsBy (fault_of command (map string_bytes words.entry.now)) result }
{
    let found = matches(alloc, words)?;
    Ok(values_of(alloc, &found)?)
}
