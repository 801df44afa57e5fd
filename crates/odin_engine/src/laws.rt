//! Laws of openings and asks. Each is the contract of a function that does nothing.
ghost use Rattle.odin_engine.specs.AskLaws.{AnswersKeep, DiskStopsAsk, FaultsKeep};
ghost use Rattle.odin_engine.specs.Looking.{CheckedTakesOne};
ghost use Rattle.odin_engine.specs.Opened.{EngineOpeningsKeepHeld};

use meaning_true::laws::checked_root_is_one;
use odin_outside::Disk;
use odin_store::laws::{changes_follow, compactions_keep, openings_keep_held};

/// An ask keeps calls, one after another, then what is to be noted of nodes, and changes nothing
/// else; after a fault of the disk some first ones are there.
pub fn asks_keep<D: Disk>()
    ensures answers { AnswersKeep D.told }
    ensures faults { FaultsKeep D.told }
    ensures disk { DiskStopsAsk D.told }
{
    changes_follow::<D>();
}

/// A crash within the opening of an engine leaves what the file stood for.
pub fn engine_openings_keep_held<D: Disk>()
    ensures { EngineOpeningsKeepHeld D.told }
{
    openings_keep_held::<D>();
    compactions_keep::<D>();
}

/// An ask of a node whose record is checked takes just one look: so does the same one asked again, once
/// it was answered.
pub fn checked_takes_one()
    ensures { CheckedTakesOne }
{
    checked_root_is_one();
}
