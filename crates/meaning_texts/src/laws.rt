//! Laws of the texts. Each is the contract of a function with an empty body.
ghost use Rattle.std.specs.Prelude.{List, ℕ};
ghost use Rattle.meaning_texts.specs.Laws.{TestsAreExact, ReadingIsExact, KeptParamsAreOne, SpellingReadsBack, ExpressionIsOne, ExpressionIsCanonical, FaultPlaceIsOne, FaultHasNoExpression, LinesAreOne, FrontsAreTested, EachTextIsAnswered, ReferencesAreSaid};

/// The tests of classes that compute hold of the words of the classes alone.
pub fn tests_are_exact()
    ensures { (text : List ℕ) → TestsAreExact text }
{}

/// The computed expression of a text is the one that the text is related to.
pub fn reading_is_exact()
    ensures { ReadingIsExact }
{}

/// The computed parameters are those that an expression keeps, and there are no others.
pub fn kept_params_are_one()
    ensures { KeptParamsAreOne }
{}

/// The spelling of a canonical expression is a text of it, and of no other.
pub fn spelling_reads_back()
    ensures { SpellingReadsBack }
{}

/// A text has one expression at most.
pub fn expression_is_one()
    ensures { ExpressionIsOne }
{}

/// The expression of a text is canonical.
pub fn expression_is_canonical()
    ensures { ExpressionIsCanonical }
{}

/// A text has one place of a fault at most.
pub fn fault_place_is_one()
    ensures { FaultPlaceIsOne }
{}

/// A text with a fault has no expression.
pub fn fault_has_no_expression()
    ensures { FaultHasNoExpression }
{}

/// The computed test holds of the bytes that can go on to an expression.
pub fn fronts_are_tested()
    ensures { FrontsAreTested }
{}

/// A text has an expression, or a fault at the computed place.
pub fn each_text_is_answered()
    ensures { EachTextIsAnswered }
{}

/// The computed lines of a text are its lines, and there are no others.
pub fn lines_are_one()
    ensures { LinesAreOne }
{}

/// The computed reference list is the one whose lines read as expressions or are bad, one for one.
pub fn references_are_said()
    ensures { ReferencesAreSaid }
{}
