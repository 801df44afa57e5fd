//! Worked examples of types, suffixes and chosen paths. Each is the contract of a function with an empty body.
ghost use Rattle.meaning_graph.specs.Examples.{PlanOfTwoWays, TypesOfUnits, PathsOfUnits, TypesOfSources};

/// The chosen one of two paths.
pub fn plan_of_two_ways()
    ensures { PlanOfTwoWays }
{}

/// Types by number, and their order.
pub fn types_of_units()
    ensures { TypesOfUnits }
{}

/// Paths of the graph of units.
pub fn paths_of_units()
    ensures { PathsOfUnits }
{}

/// Types of sources, by their suffixes.
pub fn types_of_sources()
    ensures { TypesOfSources }
{}
