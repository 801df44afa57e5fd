//! Worked examples of the names and targets of units, and of settings. Each is the contract of a function with an empty body.
ghost use Rattle.project_kits.specs.Examples.{NamesOfUnits, WholeDocument};

/// The names of a table of units.
pub fn names_of_units()
    ensures { NamesOfUnits }
{}

/// The units and the settings of a document.
pub fn whole_document()
    ensures { WholeDocument }
{}
