//! The project of the files that were found and of those that are made.
ghost use Rattle.std.specs.Prelude.{◌≡◌, ◌++◌, IfOk, OnOk, flat_map, map};
ghost use Rattle.meaning_texts.specs.Lines.{lines_of};
ghost use Rattle.project_kits.specs.Plain as meaning;

use crate::lists::list_name;
use crate::wanted::{Units, Wanted};
use object_values::{Bytes, Copied, FileBody, Memory, Seq};
use odin_bytes::next_line;
use project_file::project::{Project, Target};
use std::alloc::Global;

/// The name of the graph that is made. No file that is found is a source of this name.
pub const GRAPH: &[u8] = b"odin.graph";

fn copy_target(alloc: Global, target: &Target) -> Result<Target, Memory>
    ensures { IfOk result (λ copy. copy ≡ target.now) }
{
    let name = target.name.copy(alloc)?;
    let ask = target.ask.copy(alloc)?;
    let file = target.file.copy(alloc)?;
    Ok(Target { name, ask, file })
}

/// The target of units: what their word says is asked of their list.
fn target_of(alloc: Global, units: &Units) -> Result<Target, Memory>
    ensures { IfOk result (λ target. target ≡ meaning.target_of units.now) }
{
    let mut ask = list_name(alloc, units)?;
    ask.push(b':')?;
    ask.extend_from_slice(units.word.as_slice())?;
    let name = units.name.copy(alloc)?;
    let file = units.file.copy(alloc)?;
    Ok(Target { name, ask, file })
}

fn add_units_targets(
    alloc: Global,
    units: &[Units],
    targets: &mut Seq<Target>,
) -> Result<(), Memory>
    ensures { OnOk result (targets.new ≡ targets.old ++ map meaning.target_of units.now) }
{
    for each in units {
        targets.push(target_of(alloc, each)?)?;
    }
    Ok(())
}

fn add_targets(alloc: Global, more: &[Target], targets: &mut Seq<Target>) -> Result<(), Memory>
    ensures { OnOk result (targets.new ≡ targets.old ++ more.now) }
{
    for target in more {
        targets.push(copy_target(alloc, target)?)?;
    }
    Ok(())
}

/// The targets: those of the units, and then the project's own.
pub fn all_targets(alloc: Global, wanted: &Wanted) -> Result<Seq<Target>, Memory>
    ensures { IfOk result (λ targets. targets ≡ meaning.targets_of wanted.now) }
{
    let mut targets = Seq::new(alloc);
    add_units_targets(alloc, wanted.units.as_slice(), &mut targets)?;
    add_targets(alloc, wanted.targets.as_slice(), &mut targets)?;
    Ok(targets)
}

// ---- the patterns of sources

fn add_copies(alloc: Global, texts: &[Bytes], all: &mut Seq<Bytes>) -> Result<(), Memory>
    ensures { OnOk result (all.new ≡ all.old ++ texts.now) }
{
    for text in texts {
        all.push(text.copy(alloc)?)?;
    }
    Ok(())
}

fn add_units_patterns(alloc: Global, units: &[Units], all: &mut Seq<Bytes>) -> Result<(), Memory>
    ensures { OnOk result
        (all.new ≡ all.old ++ flat_map (λ one. one.patterns) units.now) }
{
    for each in units {
        add_copies(alloc, each.patterns.as_slice(), all)?;
    }
    Ok(())
}

fn add_names(alloc: Global, files: &[FileBody], all: &mut Seq<Bytes>) -> Result<(), Memory>
    ensures { OnOk result (all.new ≡ all.old ++ map (λ file. file.name) files.now) }
{
    for file in files {
        all.push(file.name.copy(alloc)?)?;
    }
    Ok(())
}

/// The lines of a text.
pub fn lines_of(alloc: Global, text: &[u8]) -> Result<Seq<Bytes>, Memory>
    ensures { IfOk result (λ lines. lines ≡ lines_of text.now) }
{
    let mut lines = Seq::new(alloc);
    let mut rest = text;
    'lines: while let Some((line, behind)) = next_line(rest) {
        lines.push(Bytes::from_slice(alloc, line)?)?;
        rest = behind;
    }
    Ok(lines)
}

/// The project: its graph is the made one, and its sources are also those of its units, of its kits and of the files that are made.
pub fn plain_project(
    alloc: Global,
    wanted: &Wanted,
    patterns: &[Bytes],
    made: &[FileBody],
) -> Result<Project, Memory>
    ensures { IfOk result (λ project. project ≡
        meaning.project_of wanted.now patterns.now made.now) }
{
    let graph = Bytes::from_slice(alloc, GRAPH)?;
    let mut sources = Seq::new(alloc);
    add_copies(alloc, wanted.sources.as_slice(), &mut sources)?;
    add_units_patterns(alloc, wanted.units.as_slice(), &mut sources)?;
    add_copies(alloc, patterns, &mut sources)?;
    add_names(alloc, made, &mut sources)?;
    let targets = all_targets(alloc, wanted)?;
    Ok(Project {
        graph,
        sources,
        targets,
    })
}
