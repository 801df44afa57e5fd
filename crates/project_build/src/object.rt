// An object as files.
ghost use Rattle.std.specs.Prelude.{◌≡◌, ◌++◌, IfOk, OnOk, OnErr, codes, map};
ghost use Rattle.odin_outside.specs.Causes.{HasCauseBut};
ghost use Rattle.project_build.specs.Writes as meaning;

use crate::outputs::{OutputFault, Outputs};
use build_files::files::{Files, files_of};
use object_values::{Bytes, Memory, Part, ShownBody};
use std::alloc::Global;

/// The path of a file in a folder.
fn part_path(alloc: Global, folder: &[u8], name: &[u8]) -> Result<Bytes, Memory>
    ensures { IfOk result (λ path. path ≡ (folder.now ++ codes "/") ++ name.now) }
{
    let mut path = Bytes::from_slice(alloc, folder)?;
    path.push(b'/')?;
    path.extend_from_slice(name)?;
    Ok(path)
}

/// Writes a file of a folder.
fn write_part<O: Outputs>(
    alloc: Global,
    outputs: &mut O,
    folder: &[u8],
    part: &Part,
) -> Result<(), OutputFault>
    ensures ok { OnOk result (meaning.HasWritten (meaning.part_write folder.now part.now).0
        part.now.body (O.files outputs.old) (O.files outputs.new)) }
    ensures err { OnErr result (meaning.MayHaveWritten (meaning.part_write folder.now part.now).0
        part.now.body (O.files outputs.old) (O.files outputs.new)) }
    ensures cause { HasCauseBut OutputFault.Memory
        (O.faults outputs.old) (O.faults outputs.new) result }
{
    let path = part_path(alloc, folder, part.name.as_slice())?;
    outputs.write(alloc, path.as_slice(), part.body.as_slice())
}

/// Writes the files of a folder.
fn write_parts<O: Outputs>(
    alloc: Global,
    outputs: &mut O,
    folder: &[u8],
    parts: &[Part],
) -> Result<(), OutputFault>
    ensures ok { OnOk result (meaning.HaveWritten (O.files outputs.old)
        (map (meaning.part_write folder.now) parts.now) (O.files outputs.new)) }
    ensures err { OnErr result (meaning.HasWrittenSome
        (map (meaning.part_write folder.now) parts.now)
        (O.files outputs.old) (O.files outputs.new)) }
    ensures cause { HasCauseBut OutputFault.Memory
        (O.faults outputs.old) (O.faults outputs.new) result }
{
    'parts: for part in parts {
        write_part(alloc, outputs, folder, part)?;
    }
    Ok(())
}

/// Writes the files of an object.
pub(crate) fn write_object<O: Outputs>(
    alloc: Global,
    outputs: &mut O,
    file: &[u8],
    body: &ShownBody,
) -> Result<(), OutputFault>
    ensures ok { OnOk result (meaning.HaveWritten (O.files outputs.old)
        (meaning.writes_of file.now body.now) (O.files outputs.new)) }
    ensures err { OnErr result (meaning.HasWrittenSome
        (meaning.writes_of file.now body.now) (O.files outputs.old) (O.files outputs.new)) }
    ensures cause { HasCauseBut OutputFault.Memory
        (O.faults outputs.old) (O.faults outputs.new) result }
{
    let files = files_of(alloc, body)?;
    match &files {
        Files::Nothing => Ok(()),
        Files::File(text) => outputs.write(alloc, file, text.as_slice()),
        Files::Folder(parts) => write_parts(alloc, outputs, file, parts.as_slice()),
    }
}
