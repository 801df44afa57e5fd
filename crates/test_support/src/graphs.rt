// Sample graphs of the toy tools.
use object_values::Memory;
use std::alloc::Global;

/// A tool `cc` makes an object `o` of a source `c`.
pub const CC_ONLY: &[u8] =
    b"type c simple;\ntype o simple;\nsuffix .c c;\ntool cc 1 from c to o run \"cc\";\n";

/// Units with headers are scanned, compiled and linked.
pub const C_UNITS: &[u8] =
    b"type hdr simple;\ntype c simple is hdr;\ntype sm simple;\ntype inc simple;\ntype o simple;\ntype exe simple;\ntype units list of c;\ntype objs list of o;\nsuffix .h hdr;\nsuffix .c c;\nsuffix .sm sm;\nparam debug;\ntool scan 1 from hdr to inc run \"scan\";\ntool cc 1 from c to o run \"cc\" uses debug closure inc;\nread rd from sm to units;\neach comp from units to objs;\ntool ld 1 from objs to exe run \"ld\";\n";

/// After the graph of units: a compound, and a tool with further inputs.
pub const KITS: &[u8] =
    b"type kit compound (prog exe, src sm);\ntype txt simple;\npack pk from sm to kit;\ntool doc 1 from c to txt run \"ld\" also o with \"lic.h\";\n";

/// The text of a graph file that is given in pieces.
pub fn graph_text(alloc: Global, graph: &[&[u8]]) -> Result<Vec<u8>, Memory> {
    let mut text = Vec::new(alloc);
    for piece in graph {
        text.extend_from_slice(piece)?;
    }
    Ok(text)
}
