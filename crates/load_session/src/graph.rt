// The graph of a load.
ghost use Rattle.std.specs.Prelude.{◌≡◌, IfOk};
ghost use Rattle.dg_reader.specs.Files.{IsRead};
ghost use Rattle.load_session.specs.Graph.{graph_text};

use dg_reader::read_graph;
use object_values::Memory;
use std::alloc::Global;
use type_graph::Graph;

const GRAPH: &[u8] =
    b"type hdr simple;\ntype c simple is hdr;\ntype sm simple;\ntype inc simple;\ntype o simple;\ntype exe simple;\ntype units list of c;\ntype objs list of o;\nsuffix .h hdr;\nsuffix .c c;\nsuffix .sm sm;\nparam debug;\ntool scan 1 from hdr to inc run \"scan\";\ntool cc 1 from c to o run \"cc\" uses debug closure inc;\nread rd from sm to units;\neach comp from units to objs;\ntool ld 1 from objs to exe run \"ld\";\n";

/// The text of the graph: units with headers are scanned, compiled and linked.
pub(crate) fn graph_text() -> &'static [u8]
    ensures { result.now ≡ graph_text }
{
    GRAPH
}

/// The graph of that text. It is a graph's, so there is no other fault than want of memory.
pub(crate) fn read_text(alloc: Global) -> Result<Graph, Memory>
    ensures { IfOk result (IsRead graph_text) }
{
    match read_graph(alloc, graph_text()) {
        Ok(graph) => Ok(graph),
        Err(_) => Err(Memory),
    }
}
