// Files whose records of nodes are damaged byte by byte: they may lie, and nothing may break.
use super::runs::{NONE, disk_of, run_over};
use object_values::Memory;
use std::alloc::Global;
use std::test::Fail;

// A unit with its header, asked for: its calls are kept, and after them the records of its nodes are noted.
const FIRST: &[u8] = b"put m.sm 4\na.c\nput a.c 12\ninclude a.h\nput a.h 4\ny=1\n";

const ASK: &[u8] = b"ask m.sm:exe\n";

const SOURCES: &[u8] = b"sources 3\na.c 12\na.h 4\nm.sm 4\n";

// The file after these commands.
fn file_after(alloc: Global, commands: &[&[u8]]) -> Result<Vec<u8>, Memory> {
    let mut all = Vec::new(alloc);
    for part in commands {
        all.extend_from_slice(part)?;
    }
    let mut disk = disk_of(alloc, b"")?;
    let _ = run_over(alloc, "3", NONE, &mut disk, all.as_slice())?;
    Ok(disk.image().to_vec(alloc)?)
}

// Whether a session over the file tells its sources, answers by a line, and ends; or finds that it isn't a store's.
fn holds(alloc: Global, image: &[u8]) -> Result<bool, Memory> {
    let mut disk = disk_of(alloc, image)?;
    let ran = run_over(
        alloc,
        "3",
        NONE,
        &mut disk,
        b"sources\nask m.sm:exe\nput a.h 4\ny=2\nask m.sm:exe\n",
    )?;
    match ran.status {
        0 => Ok(ran.output.as_slice().starts_with(SOURCES)),
        7 => Ok(ran.output.as_slice().starts_with(b"store: not ours at ")),
        _ => Ok(false),
    }
}

#[test]
fn a_result_that_is_damaged_breaks_nothing(rt: HostRuntime) -> Result<(), Fail> {
    let edits = file_after(rt.alloc(), &[FIRST])?;
    let image = file_after(rt.alloc(), &[FIRST, ASK])?;
    for place in edits.len()..image.len() {
        for other in [b'\x01', b'\x80'] {
            let mut damaged = image.to_vec(rt.alloc())?;
            damaged[place] ^= other;
            assert!(rt; holds(rt.alloc(), damaged.as_slice())?, "{place}");
        }
    }
    Ok(())
}
