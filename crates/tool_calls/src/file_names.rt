// The names of the files of a job.
ghost use Rattle.std.specs.Prelude.{◌≡◌, ◌++◌, OnOk, IfOk};
ghost use Rattle.meaning_calls.specs.Jobs as meaning;

use object_values::{Bytes, Memory};
use odin_bytes::write_number;
use std::alloc::Global;

/// The file of the messages.
pub(crate) const WARNINGS: &[u8] = b"warnings";

/// Adds the name of the body of a part with this number.
pub(crate) fn write_body_name(number: u64, out: &mut Bytes) -> Result<(), Memory>
    ensures { OnOk result (out.new ≡ out.old ++ meaning.body_name number) }
{
    out.push(b'i')?;
    write_number(number, out)
}

/// The file of an output.
pub(crate) fn out_file(alloc: Global, name: &[u8]) -> Result<Bytes, Memory>
    ensures { IfOk result (λ file. file ≡ meaning.out_file name.now) }
{
    let mut file = Bytes::from_slice(alloc, b"out.")?;
    file.extend_from_slice(name)?;
    Ok(file)
}
