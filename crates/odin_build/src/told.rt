// Lines that the program tells.
use build_files::causes::Cause;
use object_values::{Bytes, Memory};
use odin_bytes::write_number;
use shown_texts::shown::write_shown;
use std::alloc::Global;
use std::io::Write;

/// A line that begins with the program's name.
pub(crate) struct Line {
    text: Bytes,
}

impl Drop for Line {
    fn drop(self) {
        let Line { text } = self;
        drop(text);
    }
}

impl Line {
    pub(crate) fn new(alloc: Global) -> Result<Self, Memory> {
        Ok(Line {
            text: Bytes::from_slice(alloc, b"odin-build: ")?,
        })
    }

    /// Adds words of the program's own.
    pub(crate) fn text(mut self, words: &str) -> Result<Self, Memory> {
        self.text.extend_from_slice(words.as_bytes())?;
        Ok(self)
    }

    /// Adds bytes as a person is shown them.
    pub(crate) fn shown(mut self, bytes: &[u8]) -> Result<Self, Memory> {
        write_shown(bytes, &mut self.text)?;
        Ok(self)
    }

    pub(crate) fn number(mut self, number: u64) -> Result<Self, Memory> {
        write_number(number, &mut self.text)?;
        Ok(self)
    }

    /// Adds a place and why it failed.
    pub(crate) fn cause(self, cause: &Cause) -> Result<Self, Memory> {
        self.shown(cause.place.as_bytes())?
            .text(": ")?
            .shown(cause.cause.as_bytes())
    }

    pub(crate) fn end(self) -> Result<Bytes, Memory> {
        let Line { mut text } = self;
        text.push(b'\n')?;
        Ok(text)
    }
}

/// Tells a line on standard error. Where that is closed nobody reads it, and the status tells all the same.
pub(crate) fn say(rt: &HostRuntime, line: &[u8]) {
    let _ = rt.stderr().write_all(line);
}
