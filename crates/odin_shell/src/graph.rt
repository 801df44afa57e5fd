// The graph that a run works by.
ghost use Rattle.std.specs.Prelude.{◌≡◌, Some, IfOk, IsErr};
ghost use Rattle.odin_outside.specs.Causes.{HasCauseBut, once_more};
ghost use Rattle.odin_shell.specs.Opened.{fault_words, at_graph_line, fault_line, GraphIsOpened, OpensGraphFile};

use dg_reader::{ReadFault, read_graph_file};
use object_values::{Bytes, GraphFault, Memory};
use odin_bytes::write_number;
use odin_outside::{Tree, TreeFault};
use std::alloc::Global;
use type_graph::Graph;

/// The text of a graph that a run works by, with that graph; or the last line of the run.
#[derive(Drop)]
pub(crate) enum Opened {
    Ready(Bytes, Graph),
    Refused(Bytes),
}

/// Why the file of the graph was not read.
#[derive(Clone, Copy)]
pub(crate) enum OpenFault {
    Tree,
    Memory,
}

impl From<Memory> for OpenFault {
    ghost use Rattle.odin_shell.specs.declared.graph.OpenFault.{OpenFault};

    ghost from_gives = { λ _ fault. fault ≡ OpenFault.Memory };

    fn from(_: Memory) -> Self {
        OpenFault::Memory
    }
}

// ---- last lines

fn words_of(fault: GraphFault) -> &'static [u8]
    ensures { result.now ≡ fault_words fault }
{
    match fault {
        GraphFault::UnknownType => b"unknown type",
        GraphFault::DoubleName => b"double name",
        GraphFault::SupertypeLoop => b"supertype loop",
        GraphFault::WrongKind => b"wrong kind",
        GraphFault::TooMany => b"too many",
        GraphFault::UnknownParam => b"unknown param",
    }
}

// The last line on the declaration that begins on a line.
fn line_at(alloc: Global, line: u32, words: &[u8]) -> Result<Bytes, Memory>
    ensures { IfOk result (λ text. text ≡ at_graph_line line words.now) }
{
    let mut text = Bytes::from_slice(alloc, b"graph: line ")?;
    write_number(u64::from(line), &mut text)?;
    text.extend_from_slice(b": ")?;
    text.extend_from_slice(words)?;
    text.push(b'\n')?;
    Ok(text)
}

// The last line on the place of a token.
fn syntax_line(alloc: Global, line: u32, column: u32) -> Result<Bytes, Memory>
    ensures { IfOk result (λ text. text ≡ fault_line (ReadFault.Syntax line column)) }
{
    let mut text = Bytes::from_slice(alloc, b"graph: line ")?;
    write_number(u64::from(line), &mut text)?;
    text.extend_from_slice(b" column ")?;
    write_number(u64::from(column), &mut text)?;
    text.extend_from_slice(b": syntax\n")?;
    Ok(text)
}

fn line_of_fault(alloc: Global, fault: ReadFault) -> Result<Bytes, Memory>
    ensures ok { IfOk result (λ text. text ≡ fault_line fault) }
    ensures memory { fault ≡ ReadFault.Memory → IsErr result }
{
    match fault {
        ReadFault::TooLong => Bytes::from_slice(alloc, b"graph: too long\n"),
        ReadFault::Syntax(line, column) => syntax_line(alloc, line, column),
        ReadFault::Check(line, fault) => line_at(alloc, line, words_of(fault)),
        ReadFault::Memory => Err(Memory),
    }
}

// ---- graphs

// The graph in a text.
fn read_text(alloc: Global, text: Bytes) -> Result<Opened, Memory>
    ensures { IfOk result (GraphIsOpened (Some text)) }
{
    match read_graph_file(alloc, text.as_slice()) {
        Ok(file) => {
            file.graph.checked();
            Ok(Opened::Ready(text, file.into_graph()))
        }
        Err(fault) => Ok(Opened::Refused(line_of_fault(alloc, fault)?)),
    }
}

// The graph in what a tree gives.
fn read_given(alloc: Global, given: Option<Bytes>) -> Result<Opened, Memory>
    ensures { IfOk result (GraphIsOpened given) }
{
    match given {
        Some(text) => read_text(alloc, text),
        None => Ok(Opened::Refused(Bytes::from_slice(alloc, b"graph: no file\n")?)),
    }
}

/// The graph in a file of the tree.
pub(crate) fn open_graph<T: Tree>(
    alloc: Global,
    tree: &mut T,
    name: &[u8],
) -> Result<Opened, OpenFault>
    ensures ok { IfOk result (OpensGraphFile (T.files tree.old) name.now) }
    ensures kept { T.files tree.new ≡ T.files tree.old }
    ensures once { T.reads tree.new ≡ once_more (T.reads tree.old) }
    ensures cause { HasCauseBut OpenFault.Memory (T.faults tree.old) (T.faults tree.new) result }
{
    match tree.read(alloc, name) {
        Ok(given) => Ok(read_given(alloc, given)?),
        Err(TreeFault::Failed) => Err(OpenFault::Tree),
        Err(TreeFault::Memory) => Err(OpenFault::Memory),
    }
}
