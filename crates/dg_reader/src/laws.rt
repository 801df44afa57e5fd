//! Laws of whole graph files. Each is the contract of a function with an empty body.
ghost use Rattle.dg_reader.specs.Laws.{EachIsReadOrRefused, ReadIsNotRefused, RefusedByOne};

/// Each text is one of a checked list, or is refused by a fault.
pub fn each_is_read_or_refused()
    ensures { EachIsReadOrRefused }
{}

/// A text that is one of a checked list is refused by no fault.
pub fn read_is_not_refused()
    ensures { ReadIsNotRefused }
{}

/// A text is refused by one fault at most, at one place.
pub fn refused_by_one()
    ensures { RefusedByOne }
{}
