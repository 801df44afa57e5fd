// Words that are no options.
use crate::faults::Fault;
use crate::told::Line;
use clap::Error;
use clap::error::ErrorKind;
use object_values::{Bytes, Memory};
use std::alloc::Global;

/// The options that have a word.
const OPTIONS: [&str; 8] = [
    "--quiet",
    "--verbose",
    "--why",
    "--color",
    "--trace",
    "--page",
    "--help",
    "--version",
];

/// The line of a word that is no option, with the one that may have been meant.
fn option_line(alloc: Global, word: &[u8]) -> Result<Bytes, Memory> {
    Line::new(alloc)?
        .text("no such option: ")?
        .shown(word)?
        .hint(alloc, word, &OPTIONS)?
        .end()
}

/// The fault of words that aren't taken. What an unknown option is stands in the parser's own text between the first two quotes.
pub(crate) fn words_fault(alloc: Global, error: &Error) -> Fault {
    if error.kind() != ErrorKind::UnknownArgument {
        return Fault::Words;
    }
    let Ok(text) = format!(in alloc; "{error}") else {
        return Fault::Memory;
    };
    match text.as_str().split('\'').nth(1) {
        Some(word) => match option_line(alloc, word.as_bytes()) {
            Ok(line) => Fault::NoOption(line),
            Err(Memory) => Fault::Memory,
        },
        None => Fault::Words,
    }
}
