// The files that are sources.
ghost use Rattle.std.specs.Prelude.{◌≡◌, ◌∷◌, [], ◌++◌, find, filter, map, bytes_eq, IfOk, IfErr, OnOk};
ghost use Rattle.std.specs.List.{list_any};
ghost use Rattle.std.specs.Option.{option_copied};
ghost use Rattle.project_file.specs.Patterns.{fits};
ghost use Rattle.build_files.specs.Listed.{IsListed};
ghost use Rattle.build_files.specs.Paths.{tidied};
ghost use Rattle.project_folder.specs.Listing as meaning;

use crate::places::may_be_source;
use build_files::listed::listed;
use build_files::paths::tidy;
use object_values::{Bytes, Copied, Memory, Seq};
use odin_bytes::{Name, read_name};
use project_file::patterns::fits;
use project_file::project::{Project, Target};
use std::alloc::Global;

/// Why there is no list of sources.
#[derive(Drop)]
pub enum NoSources {
    /// A source pattern fits this file, and its path is no name of a source.
    NoName(Bytes),
    /// The sources name this file, and there is none that may be a source.
    Missing(Bytes),
    Memory,
}

impl From<Memory> for NoSources {
    ghost use Rattle.std.specs.Prelude.{◌≡◌};
    ghost use Rattle.project_folder.specs.declared.listing.NoSources.TheVariants as fault;

    ghost from_gives = { λ _ given. given ≡ fault.Memory };

    fn from(_: Memory) -> Self {
        NoSources::Memory
    }
}

// ---- paths without what leads nowhere

/// The patterns by which files are looked for.
pub fn tidy_patterns(alloc: Global, patterns: &[Bytes]) -> Result<Seq<Bytes>, Memory>
    ensures { IfOk result (λ tidy. tidy ≡ map tidied patterns.now) }
{
    let mut tidy_ones = Seq::new(alloc);
    for pattern in patterns {
        tidy_ones.push(tidy(alloc, pattern.as_slice())?)?;
    }
    Ok(tidy_ones)
}

/// The files that targets write.
pub fn tidy_outputs(alloc: Global, targets: &[Target]) -> Result<Seq<Bytes>, Memory>
    ensures { IfOk result (λ outputs. outputs ≡ meaning.outputs_of targets.now) }
{
    let mut outputs = Seq::new(alloc);
    for target in targets {
        outputs.push(tidy(alloc, target.file.as_slice())?)?;
    }
    Ok(outputs)
}

// ---- the files that patterns fit

/// Whether one of the patterns fits a path.
fn some_fits(alloc: Global, patterns: &[Bytes], path: &[u8]) -> Result<bool, Memory>
    ensures { IfOk result (λ found. found ≡ list_any (λ p. fits p path.now) patterns.now) }
{
    for pattern in patterns {
        let here = fits(alloc, pattern.as_slice(), path)?;
        if here {
            return Ok(true);
        }
    }
    Ok(false)
}

fn is_source(
    alloc: Global,
    patterns: &[Bytes],
    outputs: &[Bytes],
    path: &[u8],
) -> Result<bool, Memory>
    ensures { IfOk result (λ found.
        found ≡ meaning.is_source patterns.now outputs.now path.now) }
{
    if may_be_source(outputs, path) {
        some_fits(alloc, patterns, path)
    } else {
        Ok(false)
    }
}

/// Whether a pattern of the kits fits a file that may be a source, and none that the project lists: nobody asked for it by its name.
pub fn is_unasked(
    alloc: Global,
    own: &[Bytes],
    kits: &[Bytes],
    outputs: &[Bytes],
    path: &[u8],
) -> Result<bool, Memory>
    ensures { IfOk result (λ found.
        found ≡ meaning.is_unasked own.now kits.now outputs.now path.now) }
{
    if is_source(alloc, kits, outputs, path)? {
        let is_listed = some_fits(alloc, own, path)?;
        return Ok(!is_listed);
    }
    Ok(false)
}

/// Adds a file, where it is a source.
fn add_source(
    alloc: Global,
    patterns: &[Bytes],
    outputs: &[Bytes],
    path: &[u8],
    names: &mut Seq<Name>,
) -> Result<(), NoSources>
    ensures ok { OnOk result (names.new ≡ names.old
        ++ filter (meaning.is_source patterns.now outputs.now) (path.now ∷ [])) }
    ensures err { IfErr result (meaning.IsNoNameOf patterns.now outputs.now path.now) }
{
    if is_source(alloc, patterns, outputs, path)? {
        match read_name(alloc, path)? {
            Some(name) => names.push(name)?,
            None => return Err(NoSources::NoName(Bytes::from_slice(alloc, path)?)),
        }
    }
    Ok(())
}

/// The files that are sources, in the order in which they were found.
fn chosen(
    alloc: Global,
    patterns: &[Bytes],
    outputs: &[Bytes],
    found: &[Bytes],
) -> Result<Seq<Name>, NoSources>
    ensures ok { IfOk result (λ names.
        names ≡ meaning.chosen patterns.now outputs.now found.now) }
    ensures err { IfErr result (meaning.HasNoName patterns.now outputs.now found.now) }
{
    let mut names = Seq::new(alloc);
    for path in found {
        add_source(alloc, patterns, outputs, path.as_slice(), &mut names)?;
    }
    Ok(names)
}

// ---- files that are named

/// Whether a pattern names one file alone.
pub(crate) fn is_plain(pattern: &[u8]) -> bool
    ensures { result ≡ meaning.is_plain pattern.now }
{
    !pattern.contains(&b'*')
}

fn has_name(names: &[Name], path: &[u8]) -> bool
    ensures { result ≡ list_any (λ name. bytes_eq name path.now) names.now }
{
    names.iter().any(|name| name.as_slice() == path)
}

fn is_missing(names: &[Name], pattern: &[u8]) -> bool
    ensures { result ≡ meaning.is_missing names.now pattern.now }
{
    is_plain(pattern) && !has_name(names, pattern)
}

/// The first file that is named and isn't among the sources.
fn first_missing<'a>(names: &[Name], patterns: &'a [Bytes]) -> Option<&'a Bytes>
    ensures { option_copied result ≡ find (meaning.is_missing names.now) patterns.now }
{
    patterns
        .iter()
        .find(|pattern| is_missing(names, pattern.as_slice()))
}

// ---- the list

/// The names, each once, by their bytes.
fn sorted(names: Seq<Name>) -> Result<Vec<Name>, Memory>
    ensures { IfOk result (λ sorted. IsListed names sorted.items) }
{
    listed(names.into_vec())
}

/// The sources among files, by patterns and outputs that are tidy.
pub fn list_among(
    alloc: Global,
    patterns: &[Bytes],
    outputs: &[Bytes],
    found: &[Bytes],
) -> Result<Vec<Name>, NoSources>
    ensures ok { IfOk result (λ names.
        meaning.IsSourceList patterns.now outputs.now found.now names.items) }
    ensures err { IfErr result (meaning.IsNoSourceList patterns.now outputs.now found.now) }
{
    let names = chosen(alloc, patterns, outputs, found)?;
    if let Some(pattern) = first_missing(names.as_slice(), patterns) {
        return Err(NoSources::Missing(pattern.copy(alloc)?));
    }
    Ok(sorted(names)?)
}

/// The sources of a project, of the files that were found below its folder, by the bytes of their names: each that a source pattern fits, but none of the
/// build's own and none that a target writes. A file that is named alone has to be among them.
pub fn list_sources(
    alloc: Global,
    project: &Project,
    found: &[Bytes],
) -> Result<Vec<Name>, NoSources>
    ensures ok { IfOk result (λ names.
        meaning.AreSourcesOf project.now found.now names.items) }
    ensures err { IfErr result (meaning.IsNoListOf project.now found.now) }
{
    let patterns = tidy_patterns(alloc, project.sources.as_slice())?;
    let outputs = tidy_outputs(alloc, project.targets.as_slice())?;
    list_among(alloc, patterns.as_slice(), outputs.as_slice(), found)
}
