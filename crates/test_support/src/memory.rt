// What a run over objects in memory is handed.
ghost use Rattle.std.specs.Prelude.{◌<◌};

use object_values::{Bytes, FileBody, Memory, Seq, Text};
use odin_fakes::{MemSink, MemSource, MemTree};
use std::alloc::Global;

/// A tree that holds these files, each a name with its bytes.
pub fn tree_of(alloc: Global, listed: &[(&[u8], &[u8])]) -> Result<MemTree, Memory> {
    let mut files = Seq::new(alloc);
    for (name, body) in listed {
        files.push(FileBody {
            name: Bytes::from_slice(alloc, name)?,
            body: Text::of(Bytes::from_slice(alloc, body)?)?,
        })?;
    }
    Ok(MemTree::new(files))
}

/// A list of one number.
pub fn only(alloc: Global, number: u32) -> Result<Seq<u32>, Memory> {
    let mut numbers = Seq::new(alloc);
    numbers.push(number)?;
    Ok(numbers)
}

/// An input of this text, given in such pieces.
pub fn source(alloc: Global, text: &[u8], piece: usize) -> Result<MemSource, Memory>
    requires { 0 < piece }
{
    Ok(MemSource::new(Bytes::from_slice(alloc, text)?, piece))
}

/// An output with room for so many bytes, taken in such pieces.
pub fn sink(alloc: Global, room: usize, piece: usize) -> Result<MemSink, Memory>
    requires { 0 < piece }
{
    let mut output = MemSink::new(alloc, piece);
    output.reserve(room)?;
    Ok(output)
}

/// Words that are owned.
pub fn owned(alloc: Global, words: &[&str]) -> Result<Vec<String>, Memory> {
    let mut owned = Vec::new(alloc);
    for word in words {
        owned.push(String::from_str(alloc, word)?)?;
    }
    Ok(owned)
}
