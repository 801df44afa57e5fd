//! Texts of a document, and refusals.
ghost use Rattle.std.specs.Prelude.{◌≡◌, IfOk, Some, map, bytes_eq};
ghost use Rattle.std.specs.List.{list_any};
ghost use Rattle.std.specs.Option.{option_copied};
ghost use Rattle.toml.specs.View.{items_view, table_view, view};
ghost use Rattle.project_file.specs.Projects.{file_in, other_key, texts_in, texts_of};
ghost use Rattle.project_file.specs.Refusals.{IsRefusal, Reads};

use crate::places::is_file_below;
use crate::project::{Flaw, Problem, Refused};
use object_values::{Bytes, Memory, Seq};
use std::alloc::Global;
use toml::{Table, Value};

/// The texts of some values, where each is one.
fn texts_in(alloc: Global, items: &[Value]) -> Result<Option<Seq<Bytes>>, Memory>
    ensures { IfOk result (λ found. found ≡ texts_in (items_view items.now)) }
{
    let mut texts = Seq::new(alloc);
    for item in items {
        let Value::String(text) = item else {
            return Ok(None);
        };
        texts.push(Bytes::from_slice(alloc, text.as_bytes())?)?;
    }
    Ok(Some(texts))
}

/// The texts of a list that has nothing else.
pub fn texts_of(alloc: Global, value: &Value) -> Result<Option<Seq<Bytes>>, Memory>
    ensures { IfOk result (λ found. found ≡ texts_of (view value.now)) }
{
    match value {
        Value::Array(items) => texts_in(alloc, items.as_slice()),
        _ => Ok(None),
    }
}

fn path_of(alloc: Global, keys: &[&[u8]]) -> Result<Seq<Bytes>, Memory>
    ensures { IfOk result (λ path. path ≡ map (λ key. key.now) keys.now) }
{
    let mut path = Seq::new(alloc);
    for key in keys {
        path.push(Bytes::from_slice(alloc, key)?)?;
    }
    Ok(path)
}

/// A problem at a place, unless memory is wanted for that.
pub fn refusal(alloc: Global, place: &[&[u8]], flaw: Flaw) -> Refused
    ensures { IsRefusal (map (λ key. key.now) place.now) flaw result }
{
    match path_of(alloc, place) {
        Ok(place) => Refused::Problem(Problem { place, flaw }),
        Err(Memory) => Refused::Memory,
    }
}

/// The path of a file below the project's folder.
pub fn file_in(alloc: Global, place: &[&[u8]], path: &[u8]) -> Result<Bytes, Refused>
    ensures { Reads (file_in (map (λ key. key.now) place.now) (Some path.now)) result }
{
    let path = Bytes::from_slice(alloc, path)?;
    if is_file_below(path.as_slice()) {
        Ok(path)
    } else {
        Err(refusal(alloc, place, Flaw::NoFile(path)))
    }
}

fn is_known(known: &[&[u8]], key: &str) -> bool
    ensures { result ≡ list_any (λ name. bytes_eq name.now key.now) known.now }
{
    known.iter().any(|name| *name == key.as_bytes())
}

/// The first key that is none of these.
pub fn other_key<'a>(known: &[&[u8]], keys: &'a Table) -> Option<&'a str>
    ensures { option_copied result ≡
        other_key (map (λ name. name.now) known.now) (table_view keys.now) }
{
    for (key, _value) in keys.iter() {
        if !is_known(known, key.as_str()) {
            return Some(key.as_str());
        }
    }
    None
}
