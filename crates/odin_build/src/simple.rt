// Whether what a target asks for is one file, by the graph.
use dg_reader::read_graph;
use object_values::{Bytes, Decl, FileBody, Kind};
use project_kits::tree::made_of;
use std::{fs, str};

/// The graph of a project by its name, which is that of a made file or of one in the folder.
#[derive(Clone, Copy)]
pub(crate) struct GraphFile<'a> {
    pub(crate) made: &'a [FileBody],
    pub(crate) name: &'a [u8],
}

/// Whether a declaration is that of a type whose objects are one file each.
fn is_simple(decl: &Decl, name: &[u8]) -> bool {
    match decl {
        Decl::ObjectType(of) => of.name.as_slice() == name && of.kind == Kind::Simple,
        _ => false,
    }
}

impl GraphFile<'_> {
    fn text(&self, rt: &HostRuntime) -> Option<Bytes> {
        if let Some(file) = made_of(self.made, self.name) {
            return Bytes::from_slice(rt.alloc(), file.body.as_slice()).ok();
        }
        let path = str::from_utf8(self.name).ok()?;
        let text = fs::read(rt, path).ok()?;
        Some(Bytes::from_vec(text))
    }

    /// Whether what is asked is one file, as a source is, and not a folder. Where the graph can't be read the build tells why.
    pub(crate) fn asks_for_file(&self, rt: &HostRuntime, ask: &[u8]) -> bool {
        let Some(name) = ask.rsplit(|byte| *byte == b':').next() else {
            return false;
        };
        if name.len() == ask.len() {
            return true;
        }
        let Some(text) = self.text(rt) else {
            return false;
        };
        match read_graph(rt.alloc(), text.as_slice()) {
            Ok(graph) => graph.decls().iter().any(|decl| is_simple(decl, name)),
            Err(_) => false,
        }
    }
}
