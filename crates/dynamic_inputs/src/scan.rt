// The names in a scan output.
ghost use Rattle.std.specs.Prelude.{◌≡◌, IfOk};
ghost use Rattle.meaning_texts.specs.References.{scanned_names};

use object_values::{Memory, Seq};
use odin_bytes::{Name, next_line, read_name};
use std::alloc::Global;

/// Room is made at once for no more names than this.
const ROOM_LIMIT: usize = 1 << 10;

/// The lines of a scan output that are names, in order.
pub fn read_scan(alloc: Global, text: &[u8]) -> Result<Seq<Name>, Memory>
    ensures { IfOk result (λ names. names ≡ scanned_names text.now) }
{
    let room = text.iter().filter(|byte| **byte == b'\n').count();
    let mut names = Seq::from_vec(Vec::with_capacity(alloc, room.min(ROOM_LIMIT))?);
    let mut rest = text;
    'lines: while let Some((line, behind)) = next_line(rest) {
        rest = behind;
        if let Some(name) = read_name(alloc, line)? {
            names.push(name)?;
        }
    }
    Ok(names)
}
