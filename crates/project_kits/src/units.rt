// The tables of units.
ghost use Rattle.std.specs.Prelude.{◌≡◌, Some, bytes_eq, map, option_map};
ghost use Rattle.std.specs.List.{list_any};
ghost use Rattle.toml.specs.View.{table_view, view};
ghost use Rattle.project_file.specs.Projects.{each_member};
ghost use Rattle.project_file.specs.Refusals.{Reads};
ghost use Rattle.project_kits.specs.Entries.{prefixed};
ghost use Rattle.project_kits.specs.Units as meaning;

use crate::entries::texts_at;
use crate::wanted::Units;
use object_values::{Bytes, Seq};
use project_file::project::{Flaw, Refused};
use project_file::texts::{file_in, other_key, refusal};
use std::alloc::Global;
use toml::{Table, Value};

/// The patterns of units.
fn patterns_of(
    alloc: Global,
    word: &[u8],
    name: &[u8],
    value: Option<&Value>,
) -> Result<Seq<Bytes>, Refused>
    ensures { Reads (meaning.patterns_of word.now name.now
        (option_map (λ v. view v.now) value.entry)) result }
{
    let place: [&[u8]; 3] = [word, name, b"units"];
    match value {
        Some(value) => texts_at(alloc, &place, value),
        None => Err(refusal(alloc, &place, Flaw::Missing)),
    }
}

/// Where what is made of the units goes.
fn file_of(alloc: Global, word: &[u8], name: &[u8], value: Option<&Value>) -> Result<Bytes, Refused>
    ensures { Reads (meaning.file_of word.now name.now
        (option_map (λ v. view v.now) value.entry)) result }
{
    let place: [&[u8]; 3] = [word, name, b"file"];
    let Some(value) = value else {
        return file_in(alloc, &place, name);
    };
    match value.as_str() {
        Some(path) => file_in(alloc, &place, path.as_bytes()),
        None => Err(refusal(alloc, &place, Flaw::NotText)),
    }
}

fn units_with(alloc: Global, word: &[u8], name: &[u8], keys: &Table) -> Result<Units, Refused>
    ensures { Reads (meaning.units_with word.now name.now (table_view keys.now)) result }
{
    let patterns = patterns_of(alloc, word, name, keys.get("units"))?;
    let file = file_of(alloc, word, name, keys.get("file"))?;
    let word = Bytes::from_slice(alloc, word)?;
    let name = Bytes::from_slice(alloc, name)?;
    Ok(Units {
        word,
        name,
        patterns,
        file,
    })
}

/// Units by the keys of their table.
fn units_in(alloc: Global, word: &[u8], name: &[u8], keys: &Table) -> Result<Units, Refused>
    ensures { Reads (meaning.units_in word.now name.now (Some (table_view keys.now))) result }
{
    match other_key(&[b"units", b"file"], keys) {
        Some(key) => {
            let place: [&[u8]; 3] = [word, name, key.as_bytes()];
            Err(refusal(alloc, &place, Flaw::Unknown))
        }
        None => units_with(alloc, word, name, keys),
    }
}

fn units_of(alloc: Global, word: &[u8], name: &[u8], value: &Value) -> Result<Units, Refused>
    ensures { Reads (meaning.units_of word.now name.now (view value.now)) result }
{
    match value.as_table() {
        Some(keys) => units_in(alloc, word, name, keys),
        None => Err(refusal(alloc, &[word, name], Flaw::NotTable)),
    }
}

/// The units of a word's tables, after those that were read.
fn each_units(
    alloc: Global,
    word: &[u8],
    tables: &Table,
    mut read: Seq<Units>,
) -> Result<Seq<Units>, Refused>
    ensures { Reads (prefixed read
        (each_member (meaning.units_of word.now) (table_view tables.now))) result }
{
    for (name, value) in tables.iter() {
        read.push(units_of(alloc, word, name.as_bytes(), value)?)?;
    }
    Ok(read)
}

/// The units of a word, after those that were read.
fn units_at(
    alloc: Global,
    word: &[u8],
    value: &Value,
    read: Seq<Units>,
) -> Result<Seq<Units>, Refused>
    ensures { Reads (prefixed read (meaning.units_at word.now (view value.now))) result }
{
    match value.as_table() {
        Some(tables) => each_units(alloc, word, tables, read),
        None => Err(refusal(alloc, &[word], Flaw::NotTable)),
    }
}

/// Whether a key is one of the project's own.
fn is_own(key: &str) -> bool
    ensures { result ≡ meaning.is_own key.now }
{
    key == "graph" || key == "sources" || key == "target" || key == "kits"
}

fn is_kit(kits: &[&str], key: &str) -> bool
    ensures { result ≡ list_any (λ kit. bytes_eq kit.now key.now) kits.now }
{
    kits.iter().any(|kit| kit.as_bytes() == key.as_bytes())
}

/// Whether a key is one of the project's own, or has the settings of a kit.
#[tactic(auto, using(crate::proofs::ReadLemmas::any_read))]
fn is_taken(kits: &[&str], key: &str) -> bool
    ensures { result ≡ meaning.is_taken (map (λ kit. kit.now) kits.now) key.now }
{
    is_own(key) || is_kit(kits, key)
}

/// The units of each other key.
pub(crate) fn all_units(alloc: Global, kits: &[&str], keys: &Table) -> Result<Seq<Units>, Refused>
    ensures { Reads (meaning.all_units (map (λ kit. kit.now) kits.now) (table_view keys.now))
        result }
{
    let mut read = Seq::new(alloc);
    for (key, value) in keys.iter() {
        if !is_taken(kits, key.as_str()) {
            read = units_at(alloc, key.as_bytes(), value, read)?;
        }
    }
    Ok(read)
}
