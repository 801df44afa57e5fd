//! Worked examples of what a person is shown. Each is the contract of a function with an empty body.
ghost use Rattle.shown_texts.specs.ShownExamples.{Letters, Movers, NoCharacters, Spelled};

/// What stays as it is.
pub fn letters()
    ensures { Letters }
{}

/// What is spelled with a backslash.
pub fn spelled()
    ensures { Spelled }
{}

/// Bytes that are no character.
pub fn no_characters()
    ensures { NoCharacters }
{}

/// Characters that would move what is shown.
pub fn movers()
    ensures { Movers }
{}
