// The graph of a project.
ghost use Rattle.std.specs.Prelude.{◌≡◌, IfOk, IfErr};
ghost use Rattle.dg_reader.specs.Files.{IsRead};
ghost use Rattle.project_build.specs.Graphs.{GraphFaultIsCounted, IsGraphOf, IsNoGraph, RefusesText};

use crate::fault::GraphRefused;
use dg_reader::{ReadFault, read_graph_file};
use object_values::Bytes;
use odin_outside::{Tree, TreeFault};
use std::alloc::Global;
use type_graph::Graph;

/// The graph in a text.
fn read_text(alloc: Global, text: Bytes) -> Result<(Bytes, Graph), GraphRefused>
    ensures ok { IfOk result (λ read. IsRead read.0 read.1) }
    ensures same { IfOk result (λ read. read.0 ≡ text) }
    ensures err { IfErr result (RefusesText text) }
{
    match read_graph_file(alloc, text.as_slice()) {
        Ok(file) => {
            file.graph.checked();
            Ok((text, file.into_graph()))
        }
        Err(ReadFault::Memory) => Err(GraphRefused::Memory),
        Err(fault) => Err(GraphRefused::Text(fault)),
    }
}

/// The graph in a file of the tree, with its text.
pub(crate) fn read_graph<T: Tree>(
    alloc: Global,
    tree: &mut T,
    path: &[u8],
) -> Result<(Bytes, Graph), GraphRefused>
    ensures ok { IfOk result (λ read. IsGraphOf (T.files tree.old) path.now read.0 read.1) }
    ensures err { IfErr result (IsNoGraph (T.files tree.old) path.now) }
    ensures kept { T.files tree.new ≡ T.files tree.old }
    ensures cause { GraphFaultIsCounted (T.faults tree.old) (T.faults tree.new) result }
{
    match tree.read(alloc, path) {
        Ok(Some(text)) => read_text(alloc, text),
        Ok(None) => Err(GraphRefused::NoFile),
        Err(TreeFault::Failed) => Err(GraphRefused::Tree),
        Err(TreeFault::Memory) => Err(GraphRefused::Memory),
    }
}
