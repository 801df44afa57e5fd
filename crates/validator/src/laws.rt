//! Laws of checks. Each is the contract of a function with an empty body.
ghost use Rattle.validator.specs.Laws.{VerdictsAreExact};
ghost use Rattle.validator.specs.FitLaws.{FittingIsTested, ResultsFit};

/// A record is current exactly where its deps and the needs of now agree in number, in nodes and in what is seen, and nothing seen is new.
/// Else it is stale at the first place where they don't.
pub fn verdicts_are_exact()
    ensures { VerdictsAreExact }
{}

/// A record fits that tells results of a graph.
pub fn results_fit()
    ensures { ResultsFit }
{}

/// Whether a record fits is tested.
pub fn fitting_is_tested()
    ensures { FittingIsTested }
{}
