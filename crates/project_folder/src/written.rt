// The files that a build may write: those of targets, the trace and the page.
ghost use Rattle.std.specs.Prelude.{◌≡◌, IfOk, filter};
ghost use Rattle.std.specs.List.{list_any};
ghost use Rattle.std.specs.Option.{option_copied};
ghost use Rattle.std.specs.Prelude.{bytes_eq};
ghost use Rattle.project_folder.specs.Written as meaning;

use crate::listing::is_plain;
use crate::places::{is_reserved, is_within};
use object_values::{Bytes, Copied, Memory, Seq};
use std::alloc::Global;

/// Why a build doesn't write the file at a path.
#[derive(Clone, Copy, PartialEq, Eq)]
pub enum Taken {
    /// A project has it for the build itself, or for its history.
    Reserved,
    /// The graph stands there.
    Graph,
    /// A source stands there.
    Source,
    /// A target's file stands there.
    Target,
}

/// What is written beside the files of targets.
#[derive(Clone, Copy, PartialEq, Eq)]
pub enum Extra {
    Trace,
    Page,
}

// ---- what stands at a path

/// Whether one of two paths is the other, or lies in a folder there.
fn overlap(one: &[u8], other: &[u8]) -> bool
    ensures { result ≡ meaning.overlap one.now other.now }
{
    is_within(one, other) || is_within(other, one)
}

fn some_overlaps(paths: &[Bytes], path: &[u8]) -> bool
    ensures { result ≡ meaning.some_overlaps paths.now path.now }
{
    paths.iter().any(|other| overlap(other.as_slice(), path))
}

/// Why the file at a path isn't written, where that is so.
pub fn taken_by(graph: &[u8], sources: &[Bytes], outputs: &[Bytes], path: &[u8]) -> Option<Taken>
    ensures { result ≡ meaning.taken_by graph.now sources.now outputs.now path.now }
{
    if is_reserved(path) {
        return Some(Taken::Reserved);
    }
    if overlap(graph, path) {
        return Some(Taken::Graph);
    }
    if some_overlaps(sources, path) {
        return Some(Taken::Source);
    }
    if some_overlaps(outputs, path) {
        return Some(Taken::Target);
    }
    None
}

/// The patterns that name one file alone.
pub fn named_alone(alloc: Global, patterns: &[Bytes]) -> Result<Seq<Bytes>, Memory>
    ensures { IfOk result (λ named. named ≡ meaning.named_alone patterns.now) }
{
    let mut named = Seq::new(alloc);
    for pattern in patterns {
        if is_plain(pattern.as_slice()) {
            named.push(pattern.copy(alloc)?)?;
        }
    }
    Ok(named)
}

// ---- two targets

fn has_path(paths: &[Bytes], path: &[u8]) -> bool
    ensures { result ≡ list_any (λ other. bytes_eq other path.now) paths.now }
{
    paths.iter().any(|other| other.as_slice() == path)
}

/// The first path that another after it is too.
pub fn double_among(paths: &[Bytes]) -> Option<&Bytes>
    ensures { option_copied result ≡ meaning.double_among paths.now }
{
    let mut rest = paths;
    'paths: while let Some((path, behind)) = rest.split_first() {
        if has_path(behind, path.as_slice()) {
            return Some(path);
        }
        rest = behind;
    }
    None
}

// ---- the trace and the page

/// Whether a text has nothing of a trace or a page in it that could be lost.
fn is_bare(extra: Extra, text: &[u8]) -> bool
    ensures { result ≡ meaning.is_bare extra text.now }
{
    match extra {
        Extra::Trace => text == b"".as_slice() || text == b"[]".as_slice(),
        Extra::Page => text == b"".as_slice(),
    }
}

fn front_of(extra: Extra) -> &'static [u8]
    ensures { result.now ≡ meaning.front_of extra }
{
    match extra {
        Extra::Trace => b"[{\"dur\":",
        Extra::Page => b"<!DOCTYPE html>",
    }
}

/// Whether a text may be written over by the trace or the page: it has nothing in it, or begins as that does.
pub fn begins_as(extra: Extra, text: &[u8]) -> bool
    ensures { result ≡ meaning.begins_as extra text.now }
{
    is_bare(extra, text) || text.starts_with(front_of(extra))
}
