// The store of the project.
use dg_reader::read_graph;
use odin_engine::Engine;
use odin_outside::Tree;
use odin_real::{FileDisk, NamedFile};
use std::fs;

/// The file of the sources and of the kept calls.
pub(crate) const STORE: &str = ".odin/odin.store";

/// The store as it stands before a build or after it, opened for the graph in this file, where both can be read. A file that isn't there is left to the
/// build, and the disk goes here, since one has the lock at a time.
pub(crate) fn open_store<T: Tree>(rt: &HostRuntime, path: &[u8], tree: &mut T) -> Option<Engine> {
    if fs::metadata(rt, STORE).is_err() {
        return None;
    }
    let alloc = rt.alloc();
    let Ok(Some(text)) = tree.read(alloc, path) else {
        return None;
    };
    let Ok(graph) = read_graph(alloc, text.as_slice()) else {
        return None;
    };
    let mut disk = FileDisk::open(NamedFile::new(rt, STORE));
    Engine::open(alloc, &mut disk, graph, text.as_slice(), 1).ok()
}
