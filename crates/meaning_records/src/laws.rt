//! Laws of what an image stands for. Each is the contract of a function with an empty body.
ghost use Rattle.meaning_records.specs.Laws.{ItemsAreOne, LastWereNoted, ReachedStandLast, NodeRecordsAreOne, ReadsInOneWay, StandsForOne, EachStandsOrNot, GatesFollow, BatchesRead, LiveBatchesRead, LiveTextIsOne};
ghost use Rattle.meaning_records.specs.Numbers.{NumbersTellValues};

/// What an item is spelled tells the item, and where it ends.
pub fn items_are_one()
    ensures { ItemsAreOne }
{}

/// What the record of a node is spelled tells the record, and where it ends.
pub fn node_records_are_one()
    ensures { NodeRecordsAreOne }
{}

/// A payload reads in one way at most after what is kept.
pub fn reads_in_one_way()
    ensures { ReadsInOneWay }
{}

/// An image stands for one thing at most, or for none and then at one offset.
pub fn stands_for_one()
    ensures { StandsForOne }
{}

/// Each image stands for something, or has an offset at which it doesn't.
pub fn each_stands_or_not()
    ensures { EachStandsOrNot }
{}

/// The gate after whole records is where their lengths lead.
pub fn gates_follow()
    ensures { GatesFollow }
{}

/// Each batch that a store writes reads as what it was asked for.
pub fn batches_read()
    ensures { BatchesRead }
{}

/// The last deps of a record are its reached sources, as many as it tells.
pub fn reached_stand_last()
    ensures { ReachedStandLast }
{}

/// The batches of a rewritten store read as what they are of.
pub fn live_batches_read()
    ensures { LiveBatchesRead }
{}

/// The live batch text has one length.
pub fn live_text_is_one()
    ensures { LiveTextIsOne }
{}

/// What stands of a node was noted since the last graph.
pub fn last_were_noted()
    ensures { LastWereNoted }
{}

/// The number of a value leads back to it and stays, and of two numbers the values are equal exactly where the numbers are.
pub fn numbers_tell_values()
    ensures { NumbersTellValues }
{}
