//! Worked examples of commands and replies. Each is the contract of a function with an empty body.
ghost use Rattle.meaning_commands.specs.Examples.{PutCommands, BadPuts, BadNames, Namings, Requests, Words, LongLines, Sizes, SourceReplies, OtherReplies, Refusals, Objects};

/// `put` with a name and a number.
pub fn puts()
    ensures { PutCommands }
{}

/// `put` with other words.
pub fn bad_puts()
    ensures { BadPuts }
{}

/// Words in the place of a name that are none.
pub fn bad_names()
    ensures { BadNames }
{}

/// `take` and `drop`.
pub fn namings()
    ensures { Namings }
{}

/// `ask` and `plan`.
pub fn requests()
    ensures { Requests }
{}

/// Lines of one word.
pub fn words()
    ensures { Words }
{}

/// Lines at the limit.
pub fn long_lines()
    ensures { LongLines }
{}

/// The bytes after a line, and the end of a run.
pub fn sizes()
    ensures { Sizes }
{}

/// Replies on sources.
pub fn source_replies()
    ensures { SourceReplies }
{}

/// Replies to other commands.
pub fn other_replies()
    ensures { OtherReplies }
{}

/// Refusals.
pub fn refusals()
    ensures { Refusals }
{}

/// Objects.
pub fn objects()
    ensures { Objects }
{}
