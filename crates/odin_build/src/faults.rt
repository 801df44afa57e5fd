// Why a run ends without a build, and how that is told.
use crate::told::Line;
use build_files::causes::Cause;
use object_values::{Bytes, Copied, Memory};
use project_folder::words::USAGE;
use std::alloc::{AllocError, Global};

/// Why a run ends without a build.
#[derive(Drop)]
pub(crate) enum Fault {
    /// The project, its graph or what is asked for is refused: the line says why.
    Refused(Bytes),
    /// A file or a folder could not be read.
    Input(Cause),
    /// A file or a stream could not be written.
    Output(Cause),
    /// The store's file could not be read or written.
    Disk,
    /// The store's file is none, from this place on.
    NotOurs(u64),
    /// The store is full.
    Full,
    /// A source is too long.
    TooLong(Bytes),
    /// Another build of the project has its store.
    InUse,
    /// Files changed while each of the builds ran.
    Changing,
    /// The folder of the store is another user's.
    NotOwn,
    Memory,
    /// The words of the program are others.
    Words,
    /// A word is no option: the line says which.
    NoOption(Bytes),
}

impl From<Memory> for Fault {
    fn from(_: Memory) -> Self {
        Fault::Memory
    }
}

impl From<AllocError> for Fault {
    fn from(_: AllocError) -> Self {
        Fault::Memory
    }
}

pub(crate) const MEMORY: &[u8] = b"odin-build: out of memory\n";

/// Adds the line that shows the words of the program.
fn with_usage(mut text: Bytes) -> Result<Bytes, Memory> {
    text.extend_from_slice(b"usage: ")?;
    text.extend_from_slice(USAGE.as_bytes())?;
    text.push(b'\n')?;
    Ok(text)
}

impl Fault {
    pub(crate) fn status(&self) -> u8 {
        match self {
            Fault::Refused(_) => 2,
            Fault::Disk => 3,
            Fault::Memory => 4,
            Fault::Output(_) => 5,
            Fault::Input(_) => 6,
            Fault::NotOurs(_) => 7,
            Fault::Full => 8,
            Fault::Words | Fault::NoOption(_) => 9,
            Fault::TooLong(_) => 10,
            Fault::NotOwn => 74,
            Fault::InUse => 75,
            Fault::Changing => 76,
        }
    }

    /// The line that tells it.
    pub(crate) fn line(&self, alloc: Global) -> Result<Bytes, Memory> {
        let line = Line::new(alloc)?;
        match self {
            Fault::Refused(line) => line.copy(alloc),
            Fault::Input(cause) => line.text("cannot read ")?.cause(cause)?.end(),
            Fault::Output(cause) => line.text("cannot write ")?.cause(cause)?.end(),
            Fault::Disk => line.text(".odin/odin.store: disk fault")?.end(),
            Fault::NotOurs(at) => line
                .text(".odin/odin.store: not a store, from byte ")?
                .number(*at)?
                .end(),
            Fault::Full => line.text(".odin/odin.store: full")?.end(),
            Fault::TooLong(name) => line
                .text("longer than 16777216 bytes: ")?
                .shown(name.as_slice())?
                .end(),
            Fault::InUse => line.text("another build of this project runs")?.end(),
            Fault::NotOwn => line.text(".odin belongs to another user")?.end(),
            Fault::Changing => line
                .text("files changed while each of three builds ran")?
                .end(),
            Fault::Memory => Bytes::from_slice(alloc, MEMORY),
            Fault::NoOption(line) => with_usage(line.copy(alloc)?),
            Fault::Words => with_usage(Bytes::new(alloc)),
        }
    }
}
