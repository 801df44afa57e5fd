//! What the file of a project says, and why it says nothing.

use object_values::{Bytes, Memory, Seq};

/// A target: what is asked for it, and the file to which the answer goes.
#[derive(Drop)]
pub struct Target {
    pub name: Bytes,
    pub ask: Bytes,
    pub file: Bytes,
}

/// A project: the file of its graph, the paths of its sources as they are written, and its targets by their names.
#[derive(Drop)]
pub struct Project {
    pub graph: Bytes,
    pub sources: Seq<Bytes>,
    pub targets: Seq<Target>,
}

/// What is wrong at a place.
#[derive(Drop)]
pub enum Flaw {
    /// The key has no meaning there.
    Unknown,
    /// The key is not there.
    Missing,
    /// It is no table.
    NotTable,
    /// It is no text.
    NotText,
    /// It is no list of texts.
    NotTexts,
    /// There are more of them than may be.
    TooMany,
    /// The path leads out of the project's folder, or is empty.
    LeadsOut(Bytes),
    /// The path is that of no file below the project's folder.
    NoFile(Bytes),
}

/// A place, by the keys that lead to it, and what is wrong there.
#[derive(Drop)]
pub struct Problem {
    pub place: Seq<Bytes>,
    pub flaw: Flaw,
}

/// Why there is no project: memory is wanted, or there is a problem.
#[derive(Drop)]
pub enum Refused {
    Memory,
    Problem(Problem),
}

impl From<Memory> for Refused {
    ghost use Rattle.std.specs.Prelude.{◌≡◌};
    ghost use Rattle.project_file.specs.declared.project.Refused.TheVariants as refused;

    ghost from_gives = { λ _ r. r ≡ refused.Memory };

    fn from(_: Memory) -> Self {
        Refused::Memory
    }
}
