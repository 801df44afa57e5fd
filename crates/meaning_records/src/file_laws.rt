//! Laws of store files. Each is the contract of a function with an empty body.
ghost use Rattle.meaning_records.specs.FileLaws.{RecordsAreOne, NotOursIsExact};

/// An image has one list of whole records at most, and one end.
pub fn records_are_one()
    ensures { RecordsAreOne }
{}

/// An image that isn't ours has no records, and isn't ours at one place alone.
pub fn not_ours_is_exact()
    ensures { NotOursIsExact }
{}
