// Jobs for child programs, and what they leave.
use crate::text::Text;
use sequences::{Bytes, Copied, Memory, Seq};
use std::alloc::Global;

/// How a child program ended: with an exit status, or by a signal.
#[derive(Clone, Copy, PartialEq, Eq)]
pub enum End {
    Exit(u8),
    Signal,
}

/// A file with its bytes.
#[derive(PartialEq, Eq, Drop)]
pub struct FileBody {
    pub name: Bytes,
    pub body: Text,
}

/// The words that start a child program, the files that it finds, and the names of the files that are read when it ended.
#[derive(PartialEq, Eq, Drop)]
pub struct Job {
    pub words: Seq<Bytes>,
    pub files: Seq<FileBody>,
    pub outs: Seq<Bytes>,
}

/// The end of a child program, and the files that it left.
#[derive(PartialEq, Eq, Drop)]
pub struct Raw {
    pub end: End,
    pub files: Seq<FileBody>,
}

impl Copied for End {
    fn copy(&self, _alloc: Global) -> Result<Self, Memory> {
        Ok(*self)
    }
}

impl Copied for FileBody {
    fn copy(&self, alloc: Global) -> Result<Self, Memory> {
        Ok(FileBody {
            name: self.name.copy(alloc)?,
            body: self.body.copy(alloc)?,
        })
    }
}

impl Copied for Job {
    fn copy(&self, alloc: Global) -> Result<Self, Memory> {
        Ok(Job {
            words: self.words.copy(alloc)?,
            files: self.files.copy(alloc)?,
            outs: self.outs.copy(alloc)?,
        })
    }
}

impl Copied for Raw {
    fn copy(&self, alloc: Global) -> Result<Self, Memory> {
        Ok(Raw {
            end: self.end,
            files: self.files.copy(alloc)?,
        })
    }
}
