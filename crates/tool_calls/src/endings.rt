// How a tool ended, as a message.
ghost use Rattle.std.specs.Prelude.{◌≡◌, ◌++◌, codes, IfOk};
ghost use Rattle.meaning_calls.specs.Outcomes as meaning;

use object_values::{Bytes, Call, Memory};
use odin_bytes::write_number;
use std::alloc::Global;

fn tool_text(alloc: Global, call: &Call, how: &[u8]) -> Result<Bytes, Memory>
    ensures { IfOk result (λ text. text ≡ codes "tool " ++ (call.now.tool ++ how.now)) }
{
    let mut text = Bytes::from_slice(alloc, b"tool ")?;
    text.extend_from_slice(call.tool.as_slice())?;
    text.extend_from_slice(how)?;
    Ok(text)
}

pub(crate) fn status_text(alloc: Global, call: &Call, status: u8) -> Result<Bytes, Memory>
    ensures { IfOk result (λ text. text ≡ meaning.status_text call.now status) }
{
    let mut text = tool_text(alloc, call, b" ended with status ")?;
    write_number(u64::from(status), &mut text)?;
    Ok(text)
}

pub(crate) fn signal_text(alloc: Global, call: &Call) -> Result<Bytes, Memory>
    ensures { IfOk result (λ text. text ≡ meaning.signal_text call.now) }
{
    tool_text(alloc, call, b" ended by a signal")
}
