// The graph of units, and the fault of a graph file.
use dg_reader::{ReadFault, read_graph};
use std::alloc::Global;

/// The graph of units: a list of sources is read, each is compiled, and the objects are linked.
pub const UNITS: &[u8] =
    b"type hdr simple;\ntype c simple is hdr;\ntype sm simple;\ntype inc simple;\ntype o simple;\ntype exe simple;\ntype units list of c;\ntype objs list of o;\nsuffix .h hdr;\nsuffix .c c;\nsuffix .sm sm;\nsuffix x.c hdr;\nparam debug;\ntool scan 1 from hdr to inc run \"scan\";\ntool cc 1 from c to o run \"cc\" uses debug closure inc;\nread rd from sm to units;\neach comp from units to objs;\ntool ld 1 from objs to exe run \"ld\";\ntool back 1 from exe to c run \"ld\";\ntype kit compound (prog exe, src sm);\npack pk from sm to kit;\n";

/// The fault of a graph file, if it has one.
pub fn fault_in(alloc: Global, text: &[u8]) -> Option<ReadFault> {
    read_graph(alloc, text).err()
}
