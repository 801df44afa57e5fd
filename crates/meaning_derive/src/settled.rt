//! Worked examples of what nodes settle to, as it is printed. Each is the contract of a function with an empty body.
ghost use Rattle.meaning_derive.specs.Settled.{ToolAnswers, MissingExtras, SourcesAndLists, Elements, PackAnswers};

/// What tools make.
pub fn tools()
    ensures { ToolAnswers }
{}

/// Extras to which no path leads.
pub fn missing_extras()
    ensures { MissingExtras }
{}

/// Sources, reference lists and their elements further on.
pub fn sources_and_lists()
    ensures { SourcesAndLists }
{}

/// Picks of elements.
pub fn elements()
    ensures { Elements }
{}

/// Packs.
pub fn packs()
    ensures { PackAnswers }
{}
