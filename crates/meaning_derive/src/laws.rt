//! Laws of derivation. Each is the contract of a function with an empty body.
ghost use Rattle.meaning_derive.specs.WalkLaws.{SettlesTo, NoneByNeed, HeightAbove, NoneByCall, OneRun, ChainsFall, NoneRefused, HeightsStay, SameHeight, FrontierStays, CallsAreKnown, NoFrontier, NoCallsCome, CallsByNeeds, SourcesAreThere, SourcesAreEnough};
ghost use Rattle.meaning_derive.specs.Laws.{DeriveGrows, DeriveGrowsByCalls, CallsAreEnough, DeriveByNeeds, NeedsAreThere, FoundedOrChained, ResultCallOrChain, NoResultAndChain, ChainsAndCallsStay, HeightByNeeds, ValuedUnlessAbort, SettlesAgain, TableOutcomesFit};

/// What is derived at one height is derived at the next.
pub fn derive_grows()
    ensures { DeriveGrows }
{}

/// Partial derivation grows with the calls, and the calls that are met from a node give its result.
pub fn partial_derive_grows()
    ensures grows { DeriveGrowsByCalls }
    ensures enough { CallsAreEnough }
{}

/// A result is there exactly where each need has one below.
pub fn derive_by_needs()
    ensures needs { NeedsAreThere }
    ensures settled { DeriveByNeeds }
{}

/// A node is founded, or has a circular or a deep chain, and not both.
pub fn founded_or_chained()
    ensures { FoundedOrChained }
{}

/// A node has a result, or its derivation stops at a call, or it has a chain.
pub fn result_call_or_chain()
    ensures one { ResultCallOrChain }
    ensures apart { NoResultAndChain }
{}

/// A chain and a call stay what they are under more outcomes.
pub fn chains_and_calls_stay()
    ensures { ChainsAndCallsStay }
{}

/// A node is one higher than its highest need.
pub fn height_by_needs()
    ensures { HeightByNeeds }
{}

/// A view has a value exactly where its status isn't `Abort`.
pub fn valued_unless_abort()
    ensures { ValuedUnlessAbort }
{}

/// A node settles to what is derived from any results that agree with it on the needs.
pub fn settles_again()
    ensures { SettlesAgain }
{}

/// The outcomes of a table fit their calls, and each call has one.
pub fn table_outcomes_fit()
    ensures { TableOutcomesFit }
{}

/// Results that agree on the needs settle the node one height up.
pub fn settles_to()
    ensures { SettlesTo }
{}

/// Where there is no result, and how high one is.
pub fn none_by_need()
    ensures need { NoneByNeed }
    ensures above { HeightAbove }
    ensures call { NoneByCall }
    ensures one { OneRun }
{}

/// Chains lead down.
pub fn chains_fall()
    ensures { ChainsFall }
{}

/// Where heights fall no chain is long or comes back.
pub fn none_refused()
    ensures { NoneRefused }
{}

/// Heights stay as more outcomes come.
pub fn heights_stay()
    ensures each { HeightsStay }
    ensures height { SameHeight }
{}

/// A call stays one at which the derivation stops, until it has an outcome.
pub fn frontier_stays()
    ensures { FrontierStays }
{}

/// Each call of a node with a result has an outcome, and more outcomes bring none.
pub fn calls_are_known()
    ensures known { CallsAreKnown }
    ensures frontier { NoFrontier }
    ensures none { NoCallsCome }
{}

/// The calls of a node with a result are its own and those of its needs.
pub fn calls_by_needs()
    ensures { CallsByNeeds }
{}

/// Sources have results.
pub fn sources_are_there()
    ensures { SourcesAreThere }
{}

/// The sources that are met from a node give its result.
pub fn sources_are_enough()
    ensures { SourcesAreEnough }
{}
