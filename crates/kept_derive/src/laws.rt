//! Laws of calls that were run and kept. Each is the contract of a function with an empty body.
ghost use Rattle.kept_derive.specs.Laws.{AllAreKept, AnswerStays, FoundIsTrue, NoneIsRunAgain, RunsAreNew, RunsAreTrue};
ghost use Rattle.kept_derive.specs.StopLaws.{DiskStops, StopsAreTrue, StopsKeep};

use odin_outside::Disk;
use odin_store::laws::changes_follow;

/// What is run are calls of the node that are not kept, each once, and they are kept then. Where what was
/// kept of nodes was known, nothing is run for what is found again.
pub fn runs_are_new<D: Disk>()
    ensures new { RunsAreNew D.told }
    ensures all { AllAreKept D.told }
    ensures none { NoneIsRunAgain D.told }
    ensures same { AnswerStays D.told }
{}

/// Where the tools answer by a table, all is true for it that is kept; and what is found, where what was
/// kept of nodes was known.
pub fn runs_are_true<D: Disk>()
    ensures kept { RunsAreTrue D.told }
    ensures found { FoundIsTrue D.told }
{}

/// What is left of a store where a derivation stopped: the calls that were run before are kept, and
/// true where the others are and what was kept of nodes was known; after a fault of the disk what was to
/// be kept at last may be there too.
pub fn stops_keep<D: Disk>()
    ensures keep { StopsKeep D.told }
    ensures disk { DiskStops D.told }
    ensures right { StopsAreTrue D.told }
{
    changes_follow::<D>();
}
