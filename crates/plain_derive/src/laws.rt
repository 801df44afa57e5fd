//! Laws of what a derivation made. Each is the contract of a function with an empty body.
ghost use Rattle.plain_derive.specs.FlightLaws.{FullIsLesser, FlightsAreFew, FlightsAreGiven, FlightsAreCounted, FlightsAreLogged, OnlyNeededStarts, RefusedFlyNone, KnownFlyNone};
ghost use Rattle.plain_derive.specs.GivenLaws.{GivenAreAll, GivenAreCalls, GivenAreNew, GivenAreTrue, GivenFit, KeptStays, NoneIsGiven};
ghost use Rattle.plain_derive.specs.Laws.{FoundByAll, MadeAreCalls, MadeAreOnce, AllAreMade, MadeCountsNone, GivenUpIsCounted};

/// What is found by the calls that were made is found by all outcomes.
pub fn found_by_all()
    ensures { FoundByAll }
{}

/// What was made are calls of the node, each once, and all of them where it has a result.
pub fn made_are_calls()
    ensures each { MadeAreCalls }
    ensures once { MadeAreOnce }
    ensures all { AllAreMade }
{}

/// Faults are counted where a derivation was given up for one, and nowhere else.
pub fn faults_are_counted()
    ensures made { MadeCountsNone }
    ensures given_up { GivenUpIsCounted }
{}

/// The calls that were given outcomes over what is kept are calls of the node that are not kept, each
/// once; all that are not kept where it has a result, and none where all are kept.
pub fn given_are_calls()
    ensures each { GivenAreCalls }
    ensures new { GivenAreNew }
    ensures all { GivenAreAll }
    ensures none { NoneIsGiven }
{}

/// What is kept stays as outcomes are given. All of them fit, and are true where those that are kept
/// are and the others came of their calls.
pub fn given_are_known()
    ensures stays { KeptStays }
    ensures fit { GivenFit }
    ensures right { GivenAreTrue }
{}

/// No more run than may, and as many as may run is the lesser of the limit and of the number of calls
/// at which the derivation stops.
pub fn flights_are_full()
    ensures few { FlightsAreFew }
    ensures lesser { FullIsLesser }
{}

/// What came of tools in flight was given at calls at which the derivation stopped, and came of them;
/// faults are counted where a flight is off its course, and nowhere else. The log has the ends of just
/// these calls.
pub fn flights_are_given()
    ensures given { FlightsAreGiven }
    ensures counted { FlightsAreCounted }
    ensures logged { FlightsAreLogged }
{}

/// What is started are calls of the node that are not kept, each once.
pub fn only_needed_starts()
    ensures { OnlyNeededStarts }
{}

/// Nothing is started for a node that is refused by what is kept, or whose derivation stops at no call.
pub fn nothing_is_flown()
    ensures refused { RefusedFlyNone }
    ensures known { KnownFlyNone }
{}
