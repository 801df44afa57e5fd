//! The project in the text of its file.
ghost use Rattle.project_file.specs.Files.{IsToldBy};

use crate::document::project_of;
use crate::project::{Problem, Project, Refused};
use std::alloc::Global;
use toml::de::Error;

/// How many bytes the file has at most.
pub const FILE_LIMIT: usize = 1_048_576;

/// Why a text tells no project.
#[derive(Drop)]
pub enum NoProject {
    Memory,
    /// It is longer than `FILE_LIMIT`.
    TooLong,
    /// It is no document of TOML, from a place on.
    NoDocument(Error),
    /// The document tells no project.
    Problem(Problem),
}

/// The project that a text tells.
pub fn read_project(alloc: Global, text: &[u8]) -> Result<Project, NoProject>
    ensures { IsToldBy text.now result }
{
    if text.len() > FILE_LIMIT {
        return Err(NoProject::TooLong);
    }
    let keys = match toml::table_from_slice(alloc, text) {
        Ok(keys) => keys,
        Err(error) => {
            return Err(if error.is_memory() {
                NoProject::Memory
            } else {
                NoProject::NoDocument(error)
            });
        }
    };
    match project_of(alloc, &keys) {
        Ok(project) => Ok(project),
        Err(Refused::Memory) => Err(NoProject::Memory),
        Err(Refused::Problem(problem)) => Err(NoProject::Problem(problem)),
    }
}
