//! The lists of units, as files that are made.
ghost use Rattle.std.specs.Prelude.{◌≡◌, ◌++◌, IfOk, IfErr, OnOk, find, flat_map};
ghost use Rattle.std.specs.Option.{option_copied};
ghost use Rattle.meaning_texts.specs.Lines.{with_lf};
ghost use Rattle.project_kits.specs.Lists as meaning;

use crate::wanted::Units;
use object_values::{Bytes, FileBody, Memory, Seq, Text};
use odin_bytes::Name;
use project_folder::{NoSources, list_among, tidy_patterns};
use std::alloc::Global;

/// The name of the list of units.
pub fn list_name(alloc: Global, units: &Units) -> Result<Bytes, Memory>
    ensures { IfOk result (λ name. name ≡ meaning.list_name units.now) }
{
    let mut name = Bytes::from_slice(alloc, units.name.as_slice())?;
    name.push(b'.')?;
    name.extend_from_slice(units.word.as_slice())?;
    name.extend_from_slice(b".list")?;
    Ok(name)
}

/// Adds names, one a line. Where memory is wanted, it leaves what it began.
fn write_names(names: &[Name], out: &mut Bytes) -> Result<(), Memory>
    ensures { OnOk result (out.new ≡ out.old ++ flat_map with_lf names.now) }
{
    for name in names {
        out.extend_from_slice(name.as_slice())?;
        out.push(b'\n')?;
    }
    Ok(())
}

fn names_text(alloc: Global, names: &[Name]) -> Result<Text, Memory>
    ensures { IfOk result (λ text. text ≡ flat_map with_lf names.now) }
{
    let mut text = Bytes::new(alloc);
    write_names(names, &mut text)?;
    Text::of(text)
}

/// The list of units, by the bytes of their names.
fn list_file(
    alloc: Global,
    units: &Units,
    outputs: &[Bytes],
    found: &[Bytes],
) -> Result<FileBody, NoSources>
    ensures ok { IfOk result (meaning.IsListFile outputs.now found.now units.now) }
    ensures err { IfErr result (meaning.HasNoList outputs.now found.now units.now) }
{
    let patterns = tidy_patterns(alloc, units.patterns.as_slice())?;
    let names = list_among(alloc, patterns.as_slice(), outputs, found)?;
    let name = list_name(alloc, units)?;
    let body = names_text(alloc, names.as_slice())?;
    Ok(FileBody { name, body })
}

/// The lists of all units: of the files that were found, each that a pattern fits, but none that a target writes. A file that is named alone has to be
/// among them.
pub fn list_files(
    alloc: Global,
    units: &[Units],
    outputs: &[Bytes],
    found: &[Bytes],
) -> Result<Seq<FileBody>, NoSources>
    ensures ok { IfOk result (meaning.AreListFiles outputs.now found.now units.now) }
    ensures err { IfErr result (meaning.SomeHasNoList outputs.now found.now units.now) }
{
    let mut files = Seq::new(alloc);
    'units: for each in units {
        files.push(list_file(alloc, each, outputs, found)?)?;
    }
    Ok(files)
}

fn is_among(names: &[Bytes], name: &[u8]) -> bool
    ensures { result ≡ meaning.is_among names.now name.now }
{
    names.iter().any(|other| other.as_slice() == name)
}

/// The first of the made files whose name a file has that was found.
pub fn first_taken<'a>(made: &'a [FileBody], found: &[Bytes]) -> Option<&'a FileBody>
    ensures { option_copied result ≡ find (λ file. meaning.is_among found.now file.name) made.now }
{
    made.iter()
        .find(|file| is_among(found, file.name.as_slice()))
}
