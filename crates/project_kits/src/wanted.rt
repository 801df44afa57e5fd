//! What the file of a project with kits says.

use object_values::{Bytes, FileBody, Seq};
use project_file::project::Target;

/// A table `[word.name]`: the patterns of its units, and the file to which what is made of them goes.
#[derive(Drop)]
pub struct Units {
    pub word: Bytes,
    pub name: Bytes,
    pub patterns: Seq<Bytes>,
    pub file: Bytes,
}

/// A project with kits: its own graph, sources and targets, where it has these, its tables of units, and the files of the settings of its kits.
#[derive(Drop)]
pub struct Wanted {
    pub graph: Option<Bytes>,
    pub sources: Seq<Bytes>,
    pub targets: Seq<Target>,
    pub units: Seq<Units>,
    pub settings: Seq<FileBody>,
}
