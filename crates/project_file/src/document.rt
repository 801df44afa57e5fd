//! A project by its document.
ghost use Rattle.std.specs.Prelude.{◌≡◌, Some, find, not, option_map};
ghost use Rattle.std.specs.Option.{option_copied};
ghost use Rattle.toml.specs.View.{table_view, view};
ghost use Rattle.project_file.specs.Places as places;
ghost use Rattle.project_file.specs.Projects as meaning;
ghost use Rattle.project_file.specs.Refusals.{Reads};

use crate::places::is_below;
use crate::project::{Flaw, Project, Refused};
use crate::targets::targets_of;
use crate::texts::{file_in, other_key, refusal, texts_of};
use object_values::{Bytes, Copied, Seq};
use std::alloc::Global;
use toml::{Table, Value};

/// The file of the graph.
pub fn graph_of(alloc: Global, value: Option<&Value>) -> Result<Bytes, Refused>
    ensures { Reads (meaning.graph_of (option_map (λ v. view v.now) value.entry)) result }
{
    let Some(value) = value else {
        return Err(refusal(alloc, &[b"graph"], Flaw::Missing));
    };
    match value.as_str() {
        Some(path) => file_in(alloc, &[b"graph"], path.as_bytes()),
        None => Err(refusal(alloc, &[b"graph"], Flaw::NotText)),
    }
}

/// The first path that leads out of the project's folder.
fn leading_out(paths: &[Bytes]) -> Option<&Bytes>
    ensures { option_copied result ≡ find (λ path. not (places.is_below path)) paths.now }
{
    paths.iter().find(|path| !is_below(path.as_slice()))
}

fn sources_in(alloc: Global, paths: Seq<Bytes>) -> Result<Seq<Bytes>, Refused>
    ensures { Reads (meaning.sources_in (Some paths)) result }
{
    if let Some(path) = leading_out(paths.as_slice()) {
        let flaw = Flaw::LeadsOut(path.copy(alloc)?);
        return Err(refusal(alloc, &[b"sources"], flaw));
    }
    Ok(paths)
}

/// The paths of the sources.
pub fn sources_of(alloc: Global, value: Option<&Value>) -> Result<Seq<Bytes>, Refused>
    ensures { Reads (meaning.sources_of (option_map (λ v. view v.now) value.entry)) result }
{
    let Some(value) = value else {
        return Err(refusal(alloc, &[b"sources"], Flaw::Missing));
    };
    match texts_of(alloc, value)? {
        Some(paths) => sources_in(alloc, paths),
        None => Err(refusal(alloc, &[b"sources"], Flaw::NotTexts)),
    }
}

fn project_with(alloc: Global, keys: &Table) -> Result<Project, Refused>
    ensures { Reads (meaning.project_with (table_view keys.now)) result }
{
    let graph = graph_of(alloc, keys.get("graph"))?;
    let sources = sources_of(alloc, keys.get("sources"))?;
    let targets = targets_of(alloc, keys.get("target"))?;
    Ok(Project {
        graph,
        sources,
        targets,
    })
}

/// The project that a document tells, or the first problem with it.
pub fn project_of(alloc: Global, keys: &Table) -> Result<Project, Refused>
    ensures { Reads (meaning.project_of (table_view keys.now)) result }
{
    match other_key(&[b"graph", b"sources", b"target"], keys) {
        Some(key) => Err(refusal(alloc, &[key.as_bytes()], Flaw::Unknown)),
        None => project_with(alloc, keys),
    }
}
