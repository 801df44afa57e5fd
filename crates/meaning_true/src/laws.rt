//! Laws of node records. Each is the contract of a function with an empty body.
ghost use Rattle.meaning_true.specs.Closed.{ClosedIsTrue};
ghost use Rattle.meaning_true.specs.Checked.{FirstIsNeed, HoldsStays, RecordRenews};
ghost use Rattle.meaning_true.specs.Knowing.{CheckedRootIsOne, KnowsStays, NothingIsKnown};
ghost use Rattle.meaning_true.specs.Laws.{TrueRecordSeesResults, TrueRecordSettles, TruthGrows};

/// A true record whose needs have the values that were seen gives its node's result.
pub fn true_record_settles()
    ensures { TrueRecordSettles }
{}

/// What a true record saw of each dep is a result of the dep's node: deps with one node saw the same.
pub fn true_record_sees_results()
    ensures { TrueRecordSeesResults }
{}

/// A record stays true as more calls are kept.
pub fn truth_grows()
    ensures { TruthGrows }
{}

/// A true record holds one above its deps, where they are as they were seen.
pub fn record_renews()
    ensures { RecordRenews }
{}

/// What is noted of a node that was closed is true.
pub fn closed_is_true()
    ensures { ClosedIsTrue }
{}

/// What holds of a record holds as more outcomes come.
pub fn holds_stays()
    ensures { HoldsStays }
{}

/// What is known of records stays as more outcomes come, and where no record is kept nothing has to be true.
pub fn knows_stays()
    ensures stays { KnowsStays }
    ensures nothing { NothingIsKnown }
{}

/// The first dep of a true record is always a need.
pub fn first_is_need()
    ensures { FirstIsNeed }
{}

/// A root whose record is checked takes just one look.
pub fn checked_root_is_one()
    ensures { CheckedRootIsOne }
{}
