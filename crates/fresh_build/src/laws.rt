//! Laws of builds. Each is the contract of a function that does nothing.
ghost use Rattle.fresh_build.specs.Laws.{BuildsAreFresh, BuildsKeepTrue};

use odin_answers::laws::{kept_stays_true, replies_are_counted};
use odin_outside::Disk;

/// Where the tools answer by a table, what is kept is what it gives, and what is kept of nodes is known, a build replies what is derived from just
/// the wanted sources, with nothing kept; and all this stays so.
pub fn builds_are_fresh<D: Disk>()
    ensures fresh { BuildsAreFresh D.told }
    ensures kept { BuildsKeepTrue D.told }
{
    kept_stays_true();
    replies_are_counted();
}
