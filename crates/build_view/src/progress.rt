//! The line that tells how far a build is, which is written over on a terminal.
ghost use Rattle.std.specs.Prelude.{◌≡◌, ◌++◌, IfOk, OnOk};
ghost use Rattle.build_view.specs.Progress as meaning;

use object_values::{Bytes, Memory};
use odin_bytes::write_number;
use shown_texts::shown::write_shown;
use std::alloc::Global;

/// What clears the line: the carriage returns, and all after it goes.
pub const CLEARED: &[u8] = b"\r\x1b[K";

/// What keeps a line that is longer than the terminal is wide from going on in the next one, which a carriage return wouldn't reach; and what ends that.
const NO_WRAP: &[u8] = b"\x1b[?7l";

const WRAP: &[u8] = b"\x1b[?7h";

/// The line of a build in which so many tools have ended of those that were started, with the label of the one that was started last.
pub fn progress_line(alloc: Global, ended: u64, started: u64, label: &[u8]) -> Result<Bytes, Memory>
    ensures { IfOk result (λ line. line ≡ meaning.progress_line ended started label.now) }
{
    let mut line = Bytes::from_slice(alloc, CLEARED)?;
    line.extend_from_slice(NO_WRAP)?;
    line.push(b'[')?;
    write_number(ended, &mut line)?;
    line.push(b'/')?;
    write_number(started, &mut line)?;
    line.extend_from_slice(b"] ")?;
    write_shown(label, &mut line)?;
    line.extend_from_slice(WRAP)?;
    Ok(line)
}
