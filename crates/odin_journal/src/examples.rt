// Worked examples of the definitions. Each is the contract of a function with an empty body.
ghost use Rattle.odin_journal.specs.RewriteExamples.{BytesOfCopies, BytesOfRewrites, PlacesOfCopies};

/// The copy of a record, and of none.
pub fn bytes_of_copies()
    ensures { BytesOfCopies }
{}

/// Where copies are put beside records.
pub fn places_of_copies()
    ensures { PlacesOfCopies }
{}

/// A record that is replaced twice.
pub fn bytes_of_rewrites()
    ensures { BytesOfRewrites }
{}
