// What `ld` makes: the inputs one after the other.
ghost use Rattle.std.specs.Prelude.{◌≡◌, ◌++◌, ◌∷◌, [], OnOk};
ghost use Rattle.odin_memory.specs.Programs as meaning;

use crate::inputs::is_input_name;
use object_values::{Bytes, FileBody, Memory};

// Adds the file, if it is an input.
fn put_input(file: &FileBody, out: &mut Bytes) -> Result<(), Memory>
    ensures { OnOk result (out.new ≡ out.old ++ meaning.ld_output (file.now ∷ [])) }
{
    if is_input_name(file.name.as_slice()) {
        out.extend_from_slice(file.body.as_slice())
    } else {
        Ok(())
    }
}

pub(crate) fn put_linked(files: &[FileBody], out: &mut Bytes) -> Result<(), Memory>
    ensures { OnOk result (out.new ≡ out.old ++ meaning.ld_output files.now) }
{
    for file in files {
        put_input(file, out)?;
    }
    Ok(())
}
