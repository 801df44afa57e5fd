// The last lines of a run that its store ends.
ghost use Rattle.std.specs.Prelude.{◌≡◌, IfOk};
ghost use Rattle.odin_shell.specs.Opened.{full_line, not_ours_line};

use object_values::{Bytes, Memory};
use odin_bytes::write_number;
use std::alloc::Global;

/// That a file is not a store's, from this offset on.
pub(crate) fn line_not_ours(alloc: Global, at: u64) -> Result<Bytes, Memory>
    ensures { IfOk result (λ line. line ≡ not_ours_line at) }
{
    let mut line = Bytes::from_slice(alloc, b"store: not ours at ")?;
    write_number(at, &mut line)?;
    line.push(b'\n')?;
    Ok(line)
}

/// That a batch of this length doesn't fit after the end of the records.
pub(crate) fn line_full(alloc: Global, end: u64, length: u64) -> Result<Bytes, Memory>
    ensures { IfOk result (λ line. line ≡ full_line end length) }
{
    let mut line = Bytes::from_slice(alloc, b"store: full ")?;
    write_number(end, &mut line)?;
    line.push(b' ')?;
    write_number(length, &mut line)?;
    line.push(b'\n')?;
    Ok(line)
}
