// The load of a number of units.
ghost use Rattle.std.specs.Prelude.{◌≤◌, IfOk, IfErr};
ghost use Rattle.meaning_texts.specs.Limits.{unit_limit};
ghost use Rattle.load_session.specs.Loads.{LoadIsServed, IsLoadFault};

use crate::loaded::Loaded;
use crate::puts::{serve_edit, serve_first};
use crate::session::Session;
use odin_engine::StoreFault;
use std::alloc::Global;

/// Serves the session of a load over a disk and tools in memory: so many units with twelve headers are put and their program is asked for, then the
/// first header is edited, and edited back, and the program is asked for again each time.
pub fn serve_load(alloc: Global, units: u32) -> Result<Loaded, StoreFault>
    requires some { 1 ≤ units }
    requires few { units ≤ unit_limit }
    ensures ok { IfOk result (LoadIsServed units) }
    ensures err { IfErr result (IsLoadFault units) }
{
    let mut session = Session::open(alloc)?;
    let first = serve_first(alloc, &mut session, units)?;
    let second = serve_edit(alloc, &mut session, 2)?;
    let third = serve_edit(alloc, &mut session, 1)?;
    Ok(Loaded {
        starts: [first.starts, second.starts, third.starts],
        length: third.length,
        kept: third.kept,
    })
}
