//! The targets of a project.
ghost use Rattle.std.specs.Prelude.{◌≡◌, Some, nat_lt, option_map};
ghost use Rattle.toml.specs.View.{table_view, view};
ghost use Rattle.project_file.specs.Projects as meaning;
ghost use Rattle.project_file.specs.Refusals.{Reads};

use crate::project::{Flaw, Refused, Target};
use crate::texts::{file_in, other_key, refusal};
use object_values::{Bytes, Seq};
use std::alloc::Global;
use toml::{Table, Value};

/// How many targets there may be.
const TARGET_LIMIT: usize = 1_000;

/// What is asked for a target.
fn ask_of(alloc: Global, name: &[u8], value: Option<&Value>) -> Result<Bytes, Refused>
    ensures { Reads (meaning.ask_of name.now (option_map (λ v. view v.now) value.entry)) result }
{
    let place: [&[u8]; 3] = [b"target", name, b"ask"];
    let Some(value) = value else {
        return Err(refusal(alloc, &place, Flaw::Missing));
    };
    match value.as_str() {
        Some(text) => Ok(Bytes::from_slice(alloc, text.as_bytes())?),
        None => Err(refusal(alloc, &place, Flaw::NotText)),
    }
}

/// Where the answer goes.
fn file_of(alloc: Global, name: &[u8], value: Option<&Value>) -> Result<Bytes, Refused>
    ensures { Reads (meaning.file_of name.now (option_map (λ v. view v.now) value.entry)) result }
{
    let place: [&[u8]; 3] = [b"target", name, b"file"];
    let Some(value) = value else {
        return file_in(alloc, &place, name);
    };
    match value.as_str() {
        Some(path) => file_in(alloc, &place, path.as_bytes()),
        None => Err(refusal(alloc, &place, Flaw::NotText)),
    }
}

fn target_with(alloc: Global, name: &[u8], keys: &Table) -> Result<Target, Refused>
    ensures { Reads (meaning.target_with name.now (table_view keys.now)) result }
{
    let ask = ask_of(alloc, name, keys.get("ask"))?;
    let file = file_of(alloc, name, keys.get("file"))?;
    let name = Bytes::from_slice(alloc, name)?;
    Ok(Target { name, ask, file })
}

/// A target by the keys of its table.
fn target_in(alloc: Global, name: &[u8], keys: &Table) -> Result<Target, Refused>
    ensures { Reads (meaning.target_in name.now (Some (table_view keys.now))) result }
{
    match other_key(&[b"ask", b"file"], keys) {
        Some(key) => {
            let place: [&[u8]; 3] = [b"target", name, key.as_bytes()];
            Err(refusal(alloc, &place, Flaw::Unknown))
        }
        None => target_with(alloc, name, keys),
    }
}

fn target_of(alloc: Global, name: &[u8], value: &Value) -> Result<Target, Refused>
    ensures { Reads (meaning.target_of name.now (view value.now)) result }
{
    match value.as_table() {
        Some(keys) => target_in(alloc, name, keys),
        None => Err(refusal(alloc, &[b"target", name], Flaw::NotTable)),
    }
}

/// The targets of a table, in the order of their names.
fn each_target(alloc: Global, targets: &Table) -> Result<Seq<Target>, Refused>
    ensures { Reads (meaning.each_member meaning.target_of (table_view targets.now)) result }
{
    let mut read = Seq::new(alloc);
    for (name, value) in targets.iter() {
        read.push(target_of(alloc, name.as_bytes(), value)?)?;
    }
    Ok(read)
}

#[tactic(auto, using(crate::proofs::ReadLemmas::count_members))]
fn are_too_many(targets: &Table) -> bool
    ensures { result ≡ nat_lt meaning.target_limit (meaning.count_of (table_view targets.now)) }
{
    targets.len() > TARGET_LIMIT
}

fn targets_in(alloc: Global, targets: &Table) -> Result<Seq<Target>, Refused>
    ensures { Reads (meaning.targets_in (Some (table_view targets.now))) result }
{
    if are_too_many(targets) {
        return Err(refusal(alloc, &[b"target"], Flaw::TooMany));
    }
    each_target(alloc, targets)
}

/// The targets.
pub fn targets_of(alloc: Global, value: Option<&Value>) -> Result<Seq<Target>, Refused>
    ensures { Reads (meaning.targets_of (option_map (λ v. view v.now) value.entry)) result }
{
    let Some(value) = value else {
        return Err(refusal(alloc, &[b"target"], Flaw::Missing));
    };
    match value.as_table() {
        Some(targets) => targets_in(alloc, targets),
        None => Err(refusal(alloc, &[b"target"], Flaw::NotTable)),
    }
}
