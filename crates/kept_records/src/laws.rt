//! Laws of records of nodes, each the contract of a function with an empty body.
ghost use Rattle.kept_records.specs.Laws.{PutsAreExact, RenewalsAreExact};

/// A record that is put is its node's, in the node's place, and others stay.
pub fn puts_are_exact()
    ensures { PutsAreExact }
{}

/// What is renewed is the present part of one record.
pub fn renewals_are_exact()
    ensures { RenewalsAreExact }
{}
