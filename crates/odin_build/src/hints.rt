// What a person may have meant.
use crate::told::Line;
use dg_reader::read_graph;
use near_names::nearest;
use object_values::{Bytes, Decl, Memory};
use project_file::project::Project;
use std::alloc::Global;
use std::{fs, str};

/// The keys of a project's file, and those of a target.
const PROJECT_KEYS: [&str; 4] = ["graph", "kits", "sources", "target"];

const TARGET_KEYS: [&str; 2] = ["ask", "file"];

impl Line {
    /// Adds the name that is nearest to a word, where one is near.
    pub(crate) fn hint(self, alloc: Global, word: &[u8], names: &[&str]) -> Result<Self, Memory> {
        let Ok(word) = str::from_utf8(word) else {
            return Ok(self);
        };
        match nearest(alloc, word, names)? {
            Some(name) => self.text("; is it ")?.shown(name.as_bytes())?.text("?"),
            None => Ok(self),
        }
    }

    /// Adds the nearest of the names that are texts.
    pub(crate) fn hint_among(
        self,
        alloc: Global,
        word: &[u8],
        names: &[&[u8]],
    ) -> Result<Self, Memory> {
        let mut texts = Vec::new(alloc);
        for name in names {
            if let Ok(text) = str::from_utf8(name) {
                texts.push(text).map_err(|_| Memory)?;
            }
        }
        self.hint(alloc, word, texts.as_slice())
    }

    /// Adds the key that an unknown one at a place of a project's file may have been meant to be.
    pub(crate) fn hint_key(self, alloc: Global, place: &[Bytes]) -> Result<Self, Memory> {
        match place {
            [key] => self.hint(alloc, key.as_slice(), &PROJECT_KEYS),
            [_, _, key] => self.hint(alloc, key.as_slice(), &TARGET_KEYS),
            _ => Ok(self),
        }
    }
}

/// What a name of a graph is of.
#[derive(Clone, Copy, PartialEq, Eq)]
pub(crate) enum Named {
    Type,
    Param,
}

/// The name that a declaration gives to a type or to a parameter.
pub(crate) fn name_in(decl: &Decl, named: Named) -> Option<&[u8]> {
    match decl {
        Decl::ObjectType(of) if named == Named::Type => Some(of.name.as_slice()),
        Decl::Param(name) if named == Named::Param => Some(name.as_slice()),
        _ => None,
    }
}

/// Adds the type or the parameter of the project's graph that is nearest to a word. The graph is read again for that: where it can't be there is no hint.
pub(crate) fn hint_in_graph(
    rt: &HostRuntime,
    line: Line,
    project: &Project,
    word: &[u8],
    named: Named,
) -> Result<Line, Memory> {
    let alloc = rt.alloc();
    let Ok(path) = str::from_utf8(project.graph.as_slice()) else {
        return Ok(line);
    };
    let Ok(text) = fs::read(rt, path) else {
        return Ok(line);
    };
    let Ok(graph) = read_graph(alloc, text.as_slice()) else {
        return Ok(line);
    };
    let mut names = Vec::new(alloc);
    for decl in graph.decls() {
        if let Some(name) = name_in(decl, named) {
            names.push(name).map_err(|_| Memory)?;
        }
    }
    line.hint_among(alloc, word, names.as_slice())
}
