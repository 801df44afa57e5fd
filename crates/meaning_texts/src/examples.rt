//! Worked examples of the definitions. Each is the contract of a function with an empty body.
ghost use Rattle.meaning_texts.specs.Examples.{CanonicalSpelling, SortedParams, NamedLater, FaultPlaces, MoreFaultPlaces, LongWords, LongestTexts, Values, ReferenceLists, ScanOutputs, LastLines, Escaped, TooManyLines};

/// An expression with spaces, and its canonical spelling.
pub fn canonical_spelling()
    ensures { CanonicalSpelling }
{}

/// Parameters in another order, with a double.
pub fn sorted_params()
    ensures { SortedParams }
{}

/// Expressions that are refused only for what they name.
pub fn named_later()
    ensures { NamedLater }
{}

/// Where texts stop being expressions.
pub fn fault_places()
    ensures { FaultPlaces }
{}

/// Bytes that can't go on to an expression.
pub fn more_fault_places()
    ensures { MoreFaultPlaces }
{}

/// Words that are too long.
pub fn long_words()
    ensures { LongWords }
{}

/// Texts and words at the limits.
pub fn longest_texts()
    ensures { LongestTexts }
{}

/// What a value may hold.
pub fn values()
    ensures { Values }
{}

/// The lines of reference lists.
pub fn reference_lists()
    ensures { ReferenceLists }
{}

/// The names of a scan output.
pub fn scan_outputs()
    ensures { ScanOutputs }
{}

/// What becomes of CR at the ends of lines.
pub fn last_lines()
    ensures { LastLines }
{}

/// Escaped texts.
pub fn escaped_texts()
    ensures { Escaped }
{}

/// A reference list with too many lines.
pub fn too_many_lines()
    ensures { TooManyLines }
{}
