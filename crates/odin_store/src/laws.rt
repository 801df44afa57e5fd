//! Laws of stores. Each is the contract of a function that does nothing.
ghost use Rattle.odin_store.specs.Keeping.{KeepsChanges};
ghost use Rattle.odin_store.specs.Going.{ChangesFollow, ChangesStop};
ghost use Rattle.odin_store.specs.Edited.{EditsAreTold};
ghost use Rattle.odin_store.specs.Opening.{OpeningsKeepHeld};
ghost use Rattle.odin_store.specs.Compacting.{CompactionsKeep};
ghost use Rattle.odin_store.specs.Offsets.{OneOffset};

use meaning_graph::text_laws::graph_is_one;
use meaning_records::laws::{
    each_stands_or_not, last_were_noted, reads_in_one_way, stands_for_one,
};
use odin_outside::Disk;
use validator::laws::fitting_is_tested;

/// For each graph's text an image stands for something that fits, or isn't a store's at just one offset.
pub fn one_offset()
    ensures { OneOffset }
{
    reads_in_one_way();
    stands_for_one();
    each_stands_or_not();
    graph_is_one();
    fitting_is_tested();
}

/// A store keeps its changes on a disk one after another.
pub fn keeps_changes<D: Disk>()
    ensures { KeepsChanges D.told }
{
    reads_in_one_way();
}

/// A crash within an opening leaves what the file stood for.
pub fn openings_keep_held<D: Disk>()
    ensures { OpeningsKeepHeld D.told }
{
    reads_in_one_way();
}

/// What calls of a store do follows each other as one list of changes.
pub fn changes_follow<D: Disk>()
    ensures { ChangesFollow D.told }
{
    reads_in_one_way();
}

/// And it can be stopped at any moment.
pub fn changes_stop<D: Disk>()
    ensures { ChangesStop D.told }
{}

/// What an edit of the sources does, told without the inside of a store.
pub fn edits_are_told<D: Disk>()
    ensures { EditsAreTold D.told }
{
    reads_in_one_way();
}

/// Nothing that was kept is lost in a compaction.
pub fn compactions_keep<D: Disk>()
    ensures { CompactionsKeep D.told }
{
    last_were_noted();
    reads_in_one_way();
    stands_for_one();
}
