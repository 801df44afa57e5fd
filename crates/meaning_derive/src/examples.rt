//! Worked chains. Each is the contract of a function with an empty body.
ghost use Rattle.meaning_derive.specs.Examples.{MadeOfItself, SelfReference};

/// A program whose unit is made of the program.
pub fn circular()
    ensures { MadeOfItself }
{}

/// A text that refers to the text that is joined from it.
pub fn self_reference()
    ensures { SelfReference }
{}
