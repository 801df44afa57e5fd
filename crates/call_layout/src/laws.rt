//! Laws of what is read of a call and of its layout. Each is the contract of a function with an empty body.
ghost use Rattle.call_layout.specs.Laws.{CallIsReadBack, StaysBelowIsTested, EachPartStands, OthersStay};

/// What is told of a call is read back from its file `call`.
pub fn call_is_read_back()
    ensures { CallIsReadBack }
{}

/// The computed test holds of the paths that stay below alone.
pub fn stays_below_is_tested()
    ensures { StaysBelowIsTested }
{}

/// Each part that is there stands at its label.
pub fn each_part_stands()
    ensures { EachPartStands }
{}

/// Nothing else is changed.
pub fn others_stay()
    ensures { OthersStay }
{}
