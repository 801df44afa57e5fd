// A store, opened for a graph by its text.
ghost use Rattle.std.specs.Prelude.{IfOk};
ghost use Rattle.odin_journal.specs.Rest.{IsReady};

use dg_reader::read_graph;
use odin_outside::Disk;
use odin_store::{Store, StoreFault};
use std::alloc::Global;

/// Opens a store for the graph of a text. `Memory` where the text is no graph's.
pub fn open_store<D: Disk>(alloc: Global, disk: &mut D, text: &[u8]) -> Result<Store, StoreFault>
    ensures ready { IfOk result (λ store. IsReady store.journal (D.size_of disk.new)) }
{
    match read_graph(alloc, text) {
        Ok(graph) => Store::open(alloc, disk, &graph, text),
        Err(_) => Err(StoreFault::Memory),
    }
}
