// Where the system failed, and why.

use object_values::Memory;
use std::alloc::Global;
use std::io;
use thiserror::Error;

/// A place that could not be read or written, and why. It is a file or a folder by its path, or a stream by its name.
#[derive(Debug, Drop, Error)]
#[error("{place}: {cause}")]
pub struct Cause {
    pub place: String,
    pub cause: String,
}

impl Cause {
    /// The cause at a place, without the number that the system has for it. `Memory` where that is the cause.
    pub fn at(alloc: Global, place: &str, error: &io::Error) -> Result<Self, Memory> {
        if error.kind() == io::ErrorKind::OutOfMemory {
            return Err(Memory);
        }
        let place = String::from_str(alloc, place).map_err(|_| Memory)?;
        let cause = text_of(alloc, error)?;
        Ok(Cause { place, cause })
    }
}

fn text_of(alloc: Global, error: &io::Error) -> Result<String, Memory> {
    let text = format!(in alloc; "{error}").map_err(|_| Memory)?;
    match text.split_once(" (os error ") {
        Some((cause, _)) => String::from_str(alloc, cause).map_err(|_| Memory),
        None => Ok(text),
    }
}
