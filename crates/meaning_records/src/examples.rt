//! Worked examples of records. Each is the contract of a function with an empty body.
ghost use Rattle.meaning_records.specs.ByteExamples.{BytesOfItems, BytesOfNodeRecords, FirstPut, StandsBetween, UnnamedNumbers, NoBatches};
ghost use Rattle.meaning_records.specs.ItemExamples.{EditsThatRead, EditsThatDoNot, TablesThatTell, LongContents, CallsThatRead, CallsThatDoNot};
ghost use Rattle.meaning_records.specs.NoteExamples.{NotesThatRead, DepsThatRead, NotesInOrder, NotesThatDoNot};
ghost use Rattle.meaning_records.specs.BatchExamples.{BatchesOfPuts, BatchesOfCalls};
ghost use Rattle.meaning_records.specs.NoteBatchExamples.{NotableFacts, BatchesOfNotes, NoBatchesOfNotes};
ghost use Rattle.meaning_records.specs.LiveExamples.{RewrittenStore, NoRewrittenStore};
ghost use Rattle.meaning_records.specs.ImageExamples.{WorkedStores, WorkedFaults};

/// An item of each kind, byte for byte.
pub fn bytes_of_items()
    ensures { BytesOfItems }
{}

/// Records of nodes and their parts, byte for byte.
pub fn bytes_of_node_records()
    ensures { BytesOfNodeRecords }
{}

/// The first put of an empty text over a store that holds a graph alone.
pub fn first_put()
    ensures { FirstPut }
{}

/// A thing between other bytes.
pub fn stands_between()
    ensures { StandsBetween }
{}

/// Numbers that stand for nothing where a number tells what follows.
pub fn unnamed_numbers()
    ensures { UnnamedNumbers }
{}

/// Payloads that are no batch.
pub fn no_batches()
    ensures { NoBatches }
{}

/// Graphs, contents and edits of sources that read after what is kept.
pub fn edits_that_read()
    ensures { EditsThatRead }
{}

/// Edits of sources that don't.
pub fn edits_that_do_not()
    ensures { EditsThatDoNot }
{}

/// Items that the tables alone let in, or not.
pub fn tables_that_tell()
    ensures { TablesThatTell }
{}

/// Contents at the limit of their length.
pub fn long_contents()
    ensures { LongContents }
{}

/// Calls that may be kept.
pub fn calls_that_read()
    ensures { CallsThatRead }
{}

/// Calls that may not be kept.
pub fn calls_that_do_not()
    ensures { CallsThatDoNot }
{}

/// Records of nodes that may be noted, and what they say.
pub fn notes_that_read()
    ensures { NotesThatRead }
{}

/// The last deps of a record are its reached sources.
pub fn deps_that_read()
    ensures { DepsThatRead }
{}

/// Records of nodes one after another, and what a graph leaves of them.
pub fn notes_in_order()
    ensures { NotesInOrder }
{}

/// Records of nodes that may not be noted.
pub fn notes_that_do_not()
    ensures { NotesThatDoNot }
{}

/// What a store writes for a put.
pub fn batches_of_puts()
    ensures { BatchesOfPuts }
{}

/// What a store writes for a call: the texts that it needs and the file hasn't, each once.
pub fn batches_of_calls()
    ensures { BatchesOfCalls }
{}

/// What may be noted of a node, and what may not.
pub fn notable_facts()
    ensures { NotableFacts }
{}

/// What a store writes for records of nodes: the values that they need and the file hasn't, each once, and then the records.
pub fn batches_of_notes()
    ensures { BatchesOfNotes }
{}

/// What it doesn't write for them.
pub fn no_batches_of_notes()
    ensures { NoBatchesOfNotes }
{}

/// What a store that is written anew has in its file: each content once, before its first user.
pub fn rewritten_store()
    ensures { RewrittenStore }
{}

/// What it doesn't have there.
pub fn no_rewritten_store()
    ensures { NoRewrittenStore }
{}

/// Store files with their sizes, and what they stand for.
pub fn worked_stores()
    ensures { WorkedStores }
{}

/// Files that stand for nothing, each with its offset.
pub fn worked_faults()
    ensures { WorkedFaults }
{}
