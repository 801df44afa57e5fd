// Sessions that are written by a test.
use super::graphs::Pieces;
use super::runs::gives_by;
use object_values::{Bytes, Memory};
use odin_bytes::write_number;
use std::alloc::Global;

/// An input, and its replies.
pub(super) struct Script {
    pub(super) input: Bytes,
    pub(super) replies: Bytes,
}

impl Drop for Script {
    fn drop(self) {
        let Script { input, replies } = self;
        drop(input);
        drop(replies);
    }
}

/// A name with a number in it.
pub(super) fn numbered(
    alloc: Global,
    front: &[u8],
    number: u32,
    back: &[u8],
) -> Result<Bytes, Memory> {
    let mut name = Bytes::from_slice(alloc, front)?;
    write_number(u64::from(number), &mut name)?;
    name.extend_from_slice(back)?;
    Ok(name)
}

// `put NAME LEN`.
fn put_line(out: &mut Bytes, name: &[u8], size: usize) -> Result<(), Memory> {
    out.extend_from_slice(b"put ")?;
    out.extend_from_slice(name)?;
    out.push(b' ')?;
    write_number(size as u64, out)?;
    out.push(b'\n')
}

impl Script {
    pub(super) fn new(alloc: Global) -> Self {
        Script {
            input: Bytes::new(alloc),
            replies: Bytes::new(alloc),
        }
    }

    /// A source gets a text.
    pub(super) fn put(&mut self, name: &[u8], text: &[u8]) -> Result<(), Memory> {
        put_line(&mut self.input, name, text.len())?;
        self.input.extend_from_slice(text)?;
        put_line(&mut self.replies, name, text.len())
    }

    /// A node is asked for.
    pub(super) fn ask(&mut self, node: &[u8]) -> Result<(), Memory> {
        self.input.extend_from_slice(b"ask ")?;
        self.input.extend_from_slice(node)?;
        self.input.push(b'\n')
    }

    /// This is replied.
    pub(super) fn reply(&mut self, text: &[u8]) -> Result<(), Memory> {
        self.replies.extend_from_slice(text)
    }

    /// A line with a number in it is replied.
    pub(super) fn reply_line(
        &mut self,
        front: &[u8],
        number: u32,
        back: &[u8],
    ) -> Result<(), Memory> {
        self.replies.extend_from_slice(front)?;
        write_number(u64::from(number), &mut self.replies)?;
        self.replies.extend_from_slice(back)?;
        self.replies.push(b'\n')
    }

    /// Whether the session goes so over the graph, with so many starts of tools.
    pub(super) fn goes(&self, alloc: Global, graph: Pieces, starts: usize) -> Result<bool, Memory> {
        gives_by(
            alloc,
            graph,
            self.input.as_slice(),
            self.replies.as_slice(),
            starts,
        )
    }
}
