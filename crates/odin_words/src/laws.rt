//! What words ask for. Each law is the contract of a function with an empty body.
ghost use Rattle.odin_words.specs.Laws.{AskedIsOne, EachIsAcceptedOrNot};

/// Words ask for one work at most, and for one number of jobs.
pub fn asked_is_one()
    ensures { AskedIsOne }
{}

/// Words ask for something or are not accepted, and never both.
pub fn each_is_accepted_or_not()
    ensures { EachIsAcceptedOrNot }
{}
