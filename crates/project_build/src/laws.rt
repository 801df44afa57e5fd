//! Laws of builds. Each is the contract of a function that does nothing.
ghost use Rattle.project_build.specs.Laws.{StatusZeroIsFresh};

use odin_answers::laws::kept_stays_true;
use odin_outside::Disk;

/// Where the tools answer by a table, what is kept is what it gives, and what is kept of nodes is known, status 0 says that the files of each target
/// are those of the object that is derived from just the wanted sources, with nothing kept.
pub fn status_zero_is_fresh<D: Disk>()
    ensures { StatusZeroIsFresh D.told }
{
    kept_stays_true();
}
