// What a tool leaves: its warnings, and its output.
ghost use Rattle.std.specs.Prelude.{◌≡◌, [], IfOk, OnOk};
ghost use Rattle.odin_memory.specs.Toys as meaning;

use object_values::{Bytes, Copied, End, FileBody, Job, Memory, Raw, Seq, Text};
use std::alloc::Global;

pub(crate) fn without_output(alloc: Global, end: End, warnings: Bytes) -> Result<Raw, Memory>
    ensures { IfOk result (λ raw. raw ≡ meaning.left end warnings []) }
{
    let mut files = Seq::new(alloc);
    files.push(FileBody {
        name: Bytes::from_slice(alloc, b"warnings")?,
        body: Text::of(warnings)?,
    })?;
    Ok(Raw { end, files })
}

/// Adds the output of the job, where it has one.
pub(crate) fn put_output(
    alloc: Global,
    job: &Job,
    output: Bytes,
    raw: &mut Raw,
) -> Result<(), Memory>
    ensures { OnOk result (raw.new ≡ meaning.with_output job.now output raw.old) }
{
    let Some(name) = job.outs.as_slice().last() else {
        return Ok(());
    };
    raw.files.push(FileBody {
        name: name.copy(alloc)?,
        body: Text::of(output)?,
    })
}
