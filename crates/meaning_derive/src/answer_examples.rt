//! Worked examples of replies. Each is the contract of a function with an empty body.
ghost use Rattle.meaning_derive.specs.AnswerExamples.{ObjectAnswers, RefusalAnswers, ShownChains, Plans};

/// Objects as they are shown.
pub fn objects()
    ensures { ObjectAnswers }
{}

/// Texts that are refused.
pub fn refusals()
    ensures { RefusalAnswers }
{}

/// Refusals with a chain.
pub fn shown_chains()
    ensures { ShownChains }
{}

/// Plans.
pub fn plans()
    ensures { Plans }
{}
