//! What the document of a project with kits says.
ghost use Rattle.std.specs.Prelude.{◌≡◌, IfOk, IfErr, Ok, map, option_map};
ghost use Rattle.toml.specs.View.{items_view, table_view, view};
ghost use Rattle.project_file.specs.Projects.{texts_in, texts_of};
ghost use Rattle.project_file.specs.Refusals.{Reads, Refuses};
ghost use Rattle.project_kits.specs.Wanted as meaning;

use crate::settings::all_settings;
use crate::units::all_units;
use crate::wanted::Wanted;
use object_values::{Bytes, Memory, Seq};
use project_file::document::{graph_of, sources_of};
use project_file::project::{Flaw, Refused, Target};
use project_file::targets::targets_of;
use project_file::texts::refusal;
use std::alloc::Global;
use toml::{Table, Value};

fn words_in<'a>(alloc: Global, items: &'a [Value]) -> Result<Option<Vec<&'a str>>, Memory>
    ensures { IfOk result (λ found. option_map (λ words. map (λ word. word.now) words.items) found
        ≡ texts_in (items_view items.now)) }
{
    let mut words = Vec::new(alloc);
    for item in items {
        match item.as_str() {
            Some(word) => words.push(word)?,
            None => return Ok(None),
        }
    }
    Ok(Some(words))
}

/// The texts of a list that has nothing else.
fn words_of<'a>(alloc: Global, value: &'a Value) -> Result<Option<Vec<&'a str>>, Memory>
    ensures { IfOk result (λ found. option_map (λ words. map (λ word. word.now) words.items) found
        ≡ texts_of (view value.now)) }
{
    match value {
        Value::Array(items) => words_in(alloc, items.as_slice()),
        _ => Ok(None),
    }
}

/// The names of the kits of a project, by the value of `kits`.
pub fn kits_of<'a>(alloc: Global, value: Option<&'a Value>) -> Result<Vec<&'a str>, Refused>
    ensures ok { IfOk result (λ kits. meaning.kits_of
        (option_map (λ v. view v.now) value.entry) ≡ Ok (map (λ kit. kit.now) kits.items)) }
    ensures err { IfErr result
        (Refuses (meaning.kits_of (option_map (λ v. view v.now) value.entry))) }
{
    let Some(value) = value else {
        return Ok(Vec::new(alloc));
    };
    match words_of(alloc, value)? {
        Some(kits) => Ok(kits),
        None => Err(refusal(alloc, &[b"kits"], Flaw::NotTexts)),
    }
}

/// The file of the project's own graph, where it has one.
fn own_graph(alloc: Global, value: Option<&Value>) -> Result<Option<Bytes>, Refused>
    ensures { Reads (meaning.own_graph (option_map (λ v. view v.now) value.entry)) result }
{
    match value {
        Some(value) => Ok(Some(graph_of(alloc, Some(value))?)),
        None => Ok(None),
    }
}

fn own_sources(alloc: Global, value: Option<&Value>) -> Result<Seq<Bytes>, Refused>
    ensures { Reads (meaning.own_sources (option_map (λ v. view v.now) value.entry)) result }
{
    match value {
        Some(value) => sources_of(alloc, Some(value)),
        None => Ok(Seq::new(alloc)),
    }
}

fn own_targets(alloc: Global, value: Option<&Value>) -> Result<Seq<Target>, Refused>
    ensures { Reads (meaning.own_targets (option_map (λ v. view v.now) value.entry)) result }
{
    match value {
        Some(value) => targets_of(alloc, Some(value)),
        None => Ok(Seq::new(alloc)),
    }
}

/// What a project with these kits says, or the first problem with it.
pub fn read_wanted(alloc: Global, kits: &[&str], keys: &Table) -> Result<Wanted, Refused>
    ensures { Reads (meaning.wanted_of (map (λ kit. kit.now) kits.now) (table_view keys.now))
        result }
{
    let graph = own_graph(alloc, keys.get("graph"))?;
    let sources = own_sources(alloc, keys.get("sources"))?;
    let targets = own_targets(alloc, keys.get("target"))?;
    let units = all_units(alloc, kits, keys)?;
    let settings = all_settings(alloc, kits, keys)?;
    Ok(Wanted {
        graph,
        sources,
        targets,
        units,
        settings,
    })
}
