// Loads of units, and what they tell.
ghost use Rattle.std.specs.Prelude.{◌≤◌};
ghost use Rattle.meaning_texts.specs.Limits.{unit_limit};

use load_session::{StoreFault, serve_load};
use object_values::UNIT_LIMIT;
use std::alloc::Global;
use std::test::Fail;

// How many units, the starts of the three asks, the bytes of the object, and the kept calls.
const ROWS: [(u32, [u64; 3], u64, u64); 4] = [
    (1, [4, 3, 0], 10, 7),
    (12, [37, 3, 0], 126, 40),
    (13, [39, 4, 0], 137, 43),
    (40, [93, 6, 0], 440, 99),
];

fn tells(
    alloc: Global,
    units: u32,
    starts: [u64; 3],
    length: u64,
    kept: u64,
) -> Result<bool, StoreFault>
    requires some { 1 ≤ units }
    requires few { units ≤ unit_limit }
{
    let loaded = serve_load(alloc, units)?;
    Ok(loaded.starts == starts && loaded.length == length && loaded.kept == kept)
}

#[test]
fn loads_tell_what_was_run(rt: HostRuntime) -> Result<(), Fail> {
    for (units, starts, length, kept) in ROWS {
        if units < 1 || UNIT_LIMIT < units {
            continue;
        }
        assert!(rt; tells(rt.alloc(), units, starts, length, kept)?);
    }
    Ok(())
}
