//! The settings of kits.
ghost use Rattle.std.specs.Prelude.{◌≡◌, IfOk, find, map, not, option_map};
ghost use Rattle.std.specs.List.{list_any};
ghost use Rattle.std.specs.Option.{option_copied};
ghost use Rattle.toml.specs.Data.{get_member};
ghost use Rattle.toml.specs.View.{table_view, view};
ghost use Rattle.project_file.specs.Projects.{each_member};
ghost use Rattle.project_file.specs.Refusals.{Reads};
ghost use Rattle.project_kits.specs.Entries.{prefixed};
ghost use Rattle.project_kits.specs.Settings as meaning;

use crate::entries::texts_at;
use crate::joined::joined;
use object_values::{Bytes, FileBody, Memory, Seq, Text};
use project_file::project::{Flaw, Refused};
use project_file::texts::refusal;
use std::alloc::Global;
use toml::{Table, Value};

/// The name of a file of a kit.
pub fn kit_name(alloc: Global, kit: &[u8], file: &[u8]) -> Result<Bytes, Memory>
    ensures { IfOk result (λ name. name ≡ meaning.kit_name kit.now file.now) }
{
    let mut name = Bytes::from_slice(alloc, b"kits/")?;
    name.extend_from_slice(kit)?;
    name.push(b'/')?;
    name.extend_from_slice(file)?;
    Ok(name)
}

fn setting_of(alloc: Global, kit: &[u8], key: &[u8], value: &Value) -> Result<FileBody, Refused>
    ensures { Reads (meaning.setting_of kit.now key.now (view value.now)) result }
{
    let texts = texts_at(alloc, &[kit, key], value)?;
    let name = kit_name(alloc, kit, key)?;
    let body = Text::of(joined(alloc, texts.as_slice())?)?;
    Ok(FileBody { name, body })
}

/// The settings in a kit's table, after those that were read.
fn settings_in(
    alloc: Global,
    kit: &[u8],
    keys: &Table,
    mut read: Seq<FileBody>,
) -> Result<Seq<FileBody>, Refused>
    ensures { Reads (prefixed read
        (each_member (meaning.setting_of kit.now) (table_view keys.now))) result }
{
    for (key, value) in keys.iter() {
        read.push(setting_of(alloc, kit, key.as_bytes(), value)?)?;
    }
    Ok(read)
}

/// The settings of a kit, after those that were read.
fn settings_of(
    alloc: Global,
    kit: &[u8],
    value: Option<&Value>,
    read: Seq<FileBody>,
) -> Result<Seq<FileBody>, Refused>
    ensures { Reads (prefixed read
        (meaning.settings_of kit.now (option_map (λ v. view v.now) value.entry))) result }
{
    let Some(value) = value else {
        return Ok(read);
    };
    match value.as_table() {
        Some(keys) => settings_in(alloc, kit, keys, read),
        None => Err(refusal(alloc, &[kit], Flaw::NotTable)),
    }
}

/// The settings of a kit in its table, after those that were read.
#[tactic(auto, using(toml::proofs::Views::table_get))]
fn settings_at(
    alloc: Global,
    kit: &str,
    keys: &Table,
    read: Seq<FileBody>,
) -> Result<Seq<FileBody>, Refused>
    ensures { Reads (prefixed read
        (meaning.settings_of kit.now (get_member kit.now (table_view keys.now)))) result }
{
    settings_of(alloc, kit.as_bytes(), keys.get(kit), read)
}

/// The settings of all kits.
pub(crate) fn all_settings(
    alloc: Global,
    kits: &[&str],
    keys: &Table,
) -> Result<Seq<FileBody>, Refused>
    ensures { Reads (meaning.all_settings (map (λ kit. kit.now) kits.now) (table_view keys.now))
        result }
{
    let mut read = Seq::new(alloc);
    for kit in kits {
        read = settings_at(alloc, kit, keys, read)?;
    }
    Ok(read)
}

// ---- settings of no kit

/// Whether one of the files has this name.
fn has_name(files: &[FileBody], name: &[u8]) -> bool
    ensures { result ≡ meaning.has_name files.now name.now }
{
    files.iter().any(|file| file.name.as_slice() == name)
}

/// The first setting that isn't the name of a file of its kit.
pub fn first_unknown<'a>(settings: &'a [FileBody], files: &[FileBody]) -> Option<&'a FileBody>
    ensures { option_copied result ≡
        find (λ setting. not (meaning.has_name files.now setting.name)) settings.now }
{
    settings
        .iter()
        .find(|setting| !has_name(files, setting.name.as_slice()))
}
