//! Laws of needs, calls and settling. Each is the contract of a function with an empty body.
ghost use Rattle.meaning_tasks.specs.Laws.{ReachedAreComputed, OneListOfNames, OneListOfNeeds, NeedsGrow, Locality, FiniteHasNeeds, SettlesOverAnySources, CountedThenReached, NeedsCarry, FullNeedsStay, OneCall};

/// Names to which lines lead are computed by so many lines as there are names that have some.
pub fn reached_are_computed()
    ensures { ReachedAreComputed }
{}

/// There is one list of reached names.
pub fn one_list_of_names()
    ensures { OneListOfNames }
{}

/// There is one list of needs.
pub fn one_list_of_needs()
    ensures { OneListOfNeeds }
{}

/// More results take no need away.
pub fn needs_grow()
    ensures { NeedsGrow }
{}

/// Needs, call, own part and value follow from the values of the needs alone.
pub fn locality()
    ensures { Locality }
{}

/// Over a map with finitely many results every node has needs.
pub fn finite_has_needs()
    ensures { FiniteHasNeeds }
{}

/// What a node with steps settles to doesn't depend on the sources.
pub fn settles_over_any_sources()
    ensures { SettlesOverAnySources }
{}

/// The needs are the counted ones and the reached sources.
pub fn counted_then_reached()
    ensures { CountedThenReached }
{}

/// Needs, call and view follow from the results of the needs.
pub fn needs_carry()
    ensures carried { NeedsCarry }
    ensures full { FullNeedsStay }
{}

/// There is one call of a node, or none.
pub fn one_call()
    ensures { OneCall }
{}
