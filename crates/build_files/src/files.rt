// An object as files.
ghost use Rattle.std.specs.Prelude.{◌≡◌, ◌∷◌, [], IfOk};
ghost use Rattle.meaning_commands.specs.Formed.{IsFormedBody};
ghost use Rattle.build_files.specs.Files as meaning;

use object_values::{Bytes, Copied, Memory, Part, Seq, Text};
use odin_bytes::write_number;
use odin_commands::ShownBody;
use std::alloc::Global;

/// What is written of an object.
pub enum Files {
    Nothing,
    File(Text),
    /// Files with their names in the folder.
    Folder(Seq<Part>),
}

// By hand: a drop is one call, where a derived one is opened field by field at each early return.
impl Drop for Files {
    fn drop(self) {
        match self {
            Files::Nothing => {}
            Files::File(text) => drop(text),
            Files::Folder(parts) => drop(parts),
        }
    }
}

/// The file of a line, by its number.
fn numbered_file(alloc: Global, number: u64, line: &[u8]) -> Result<Part, Memory>
    ensures { IfOk result (λ file.
        meaning.numbered_files number (line.now ∷ []) ≡ file ∷ []) }
{
    let mut name = Bytes::new(alloc);
    write_number(number, &mut name)?;
    let mut body = Bytes::from_slice(alloc, line)?;
    body.push(b'\n')?;
    Ok(Part {
        name,
        body: Text::of(body)?,
    })
}

fn numbered_files(alloc: Global, lines: &[Bytes]) -> Result<Seq<Part>, Memory>
    ensures { IfOk result (λ files. files ≡ meaning.numbered_files 1 lines.now) }
{
    let mut files = Seq::new(alloc);
    for (place, line) in lines.iter().enumerate() {
        files.push(numbered_file(alloc, place as u64 + 1, line.as_slice())?)?;
    }
    Ok(files)
}

/// The files of an object.
pub fn files_of(alloc: Global, body: &ShownBody) -> Result<Files, Memory>
    ensures files { IfOk result (λ files. files ≡ meaning.files_of body.now) }
    ensures within { IsFormedBody body.now → IfOk result meaning.HaveSafeFileNames }
{
    match body {
        ShownBody::Nothing => Ok(Files::Nothing),
        ShownBody::Simple(text) => Ok(Files::File(text.copy(alloc)?)),
        ShownBody::List(lines) => Ok(Files::Folder(numbered_files(alloc, lines.as_slice())?)),
        ShownBody::Compound(parts) => Ok(Files::Folder(parts.copy(alloc)?)),
    }
}
