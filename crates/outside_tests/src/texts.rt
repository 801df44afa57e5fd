// Texts and files as tables name them, and calls that are made of them.
use object_values::{Bytes, Call, FileBody, Memory, Seq, Text as Body};
use std::alloc::Global;

pub(super) type Text = &'static [u8];

// Files by their names, each with its bytes.
pub(super) type Files = &'static [(Text, Text)];

// Adds the texts at the end of a list.
pub(super) fn put_texts(
    alloc: Global,
    list: &mut Seq<Bytes>,
    texts: &[&[u8]],
) -> Result<(), Memory> {
    for text in texts {
        list.push(Bytes::from_slice(alloc, text)?)?;
    }
    Ok(())
}

// The body with these bytes.
pub(super) fn body_of(alloc: Global, bytes: &[u8]) -> Result<Body, Memory> {
    Body::of(Bytes::from_slice(alloc, bytes)?)
}

// A file with this name and these bytes.
fn file_of(alloc: Global, name: &[u8], body: &[u8]) -> Result<FileBody, Memory> {
    Ok(FileBody {
        name: Bytes::from_slice(alloc, name)?,
        body: body_of(alloc, body)?,
    })
}

// Adds files with these names and bytes at the end of a list.
pub(super) fn put_files(
    alloc: Global,
    list: &mut Seq<FileBody>,
    files: &[(&[u8], &[u8])],
) -> Result<(), Memory> {
    for (name, body) in files {
        list.push(file_of(alloc, name, body)?)?;
    }
    Ok(())
}

// Whether a list holds these texts, in this order.
pub(super) fn are_texts(found: &[Bytes], wanted: &[&[u8]]) -> bool {
    found.len() == wanted.len()
        && found
            .iter()
            .zip(wanted)
            .all(|(bytes, text)| bytes.as_slice() == *text)
}

// Whether a list holds files with these names and bytes, in this order.
pub(super) fn are_files(found: &[FileBody], wanted: &[(&[u8], &[u8])]) -> bool {
    found.len() == wanted.len()
        && found.iter().zip(wanted).all(|(file, (name, body))| file.name.as_slice() == *name
            && file.body.as_slice() == *body)
}

// Fills in the tool's name and version, the words and the names of the outputs.
fn put_names(
    alloc: Global,
    call: &mut Call,
    words: &[&[u8]],
    outs: &[&[u8]],
) -> Result<(), Memory> {
    call.tool.extend_from_slice(b"cc")?;
    call.version.extend_from_slice(b"1.2")?;
    put_texts(alloc, &mut call.words, words)?;
    put_texts(alloc, &mut call.outs, outs)
}

// A call without parameters and inputs.
pub(super) fn call_of(alloc: Global, words: &[&[u8]], outs: &[&[u8]]) -> Result<Call, Memory> {
    let mut call = Call {
        tool: Bytes::new(alloc),
        version: Bytes::new(alloc),
        words: Seq::new(alloc),
        params: Seq::new(alloc),
        parts: Seq::new(alloc),
        outs: Seq::new(alloc),
    };
    put_names(alloc, &mut call, words, outs)?;
    Ok(call)
}
