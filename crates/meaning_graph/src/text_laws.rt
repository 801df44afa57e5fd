//! Laws of graph files. Each is the contract of a function with an empty body.
ghost use Rattle.meaning_graph.specs.TextLaws.{TokenIsAtFront, GapIsPassed, SpellingIsText, GraphIsOne, SyntaxFaultIsOne, LineIsOne, EachDeclarationBegins, FirstFaultIsComputed, FirstFaultIsOne, CheckedHasSpelling, NamedIsReachability, GoingIsTested, WholeIsTested, EachGraphTextIsAnswered};

/// The computed token is the one with which a text begins.
pub fn token_is_at_front()
    ensures { TokenIsAtFront }
{}

/// The computed rest is what stands after blanks and comments.
pub fn gap_is_passed()
    ensures { GapIsPassed }
{}

/// The canonical spelling of a list is a text of it.
pub fn spelling_is_text()
    ensures { SpellingIsText }
{}

/// A text is of one list at most.
pub fn graph_is_one()
    ensures { GraphIsOne }
{}

/// A text has one place of a syntax fault at most.
pub fn syntax_fault_is_one()
    ensures { SyntaxFaultIsOne }
{}

/// A declaration begins on one line.
pub fn line_is_one()
    ensures { LineIsOne }
{}

/// Each declaration of a text begins on a line.
pub fn each_declaration_begins()
    ensures { EachDeclarationBegins }
{}

/// The computed first fault is the first one, and there is none exactly where the list is checked.
pub fn first_fault_is_computed()
    ensures { FirstFaultIsComputed }
{}

/// A list has one first fault at most.
pub fn first_fault_is_one()
    ensures { FirstFaultIsOne }
{}

/// A spellable list that is checked has a spelling.
pub fn checked_has_spelling()
    ensures { CheckedHasSpelling }
{}

/// One name means a type of another exactly where supertypes lead there.
pub fn named_is_reachability()
    ensures { NamedIsReachability }
{}

/// The computed test holds of the tokens that can go on to a graph.
pub fn going_is_tested()
    ensures { GoingIsTested }
{}

/// Tokens lead back to the start exactly where they are those of a graph.
pub fn whole_is_tested()
    ensures { WholeIsTested }
{}

/// A text that isn't too long is one of a graph, or has a syntax fault.
pub fn each_text_is_answered()
    ensures { EachGraphTextIsAnswered }
{}
