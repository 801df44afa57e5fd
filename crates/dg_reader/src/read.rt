// A graph file, read and checked.
ghost use Rattle.std.specs.Prelude.{◌≡◌, ◌≤◌, ◌<◌, ◌-◌, [], length, take, IfOk, IfErr};
ghost use Rattle.meaning_texts.specs.Limits.{graph_limit};
ghost use Rattle.meaning_graph.specs.Places.{line_behind, column_behind, BeginsOnLine};
ghost use Rattle.dg_reader.specs.Files.{ReadsDecls, IsFile, IsRead, Refuses, syntax_at};

use crate::cursor::{Cursor, Stop};
use crate::fault::ReadFault;
use crate::places::{column_behind, line_behind};
use object_values::{Decl, GRAPH_LIMIT, GraphFault, Seq};
use std::alloc::Global;
use type_graph::{CheckFault, Graph};

/// The graph of a graph file, with the places where its declarations begin.
pub struct GraphFile {
    pub graph: Graph,
    starts: Seq<usize>,
}

impl Drop for GraphFile {
    fn drop(self) {
        let GraphFile { graph, starts } = self;
        drop(graph);
        drop(starts);
    }
}

impl GraphFile {
    /// The graph alone.
    pub fn into_graph(self) -> Graph
        ensures { result ≡ self.graph }
    {
        let GraphFile { graph, starts } = self;
        drop(starts);
        graph
    }

    /// The line, from 1, where the declaration of a number, from 1, begins in the text that was read.
    pub fn line_of(&self, text: &[u8], number: usize) -> u32
        requires read { IsFile text.now self.now }
        requires counted { 0 < number }
        requires within { number ≤ length self.now.graph }
        ensures { BeginsOnLine text.now self.now.graph number result }
    {
        let start = self.starts.as_slice()[number - 1];
        line_behind(&text[..start]) as u32
    }
}

/// The graph of a graph file, with the places where its declarations begin.
pub fn read_graph_file(alloc: Global, text: &[u8]) -> Result<GraphFile, ReadFault>
    ensures ok { IfOk result (IsFile text.now) }
    ensures err { IfErr result (Refuses text.now) }
{
    if text.len() > GRAPH_LIMIT {
        return Err(ReadFault::TooLong);
    }
    let Declared { decls, starts } = read_decls(alloc, text)?;
    let graph = match Graph::check(alloc, decls) {
        Ok(graph) => graph,
        Err(CheckFault::Graph(number, fault)) => {
            let start = starts.as_slice()[number as usize - 1];
            return Err(check_fault(text, start, fault));
        }
        Err(CheckFault::Memory) => return Err(ReadFault::Memory),
    };
    Ok(GraphFile { graph, starts })
}

/// The graph of a graph file.
pub fn read_graph(alloc: Global, text: &[u8]) -> Result<Graph, ReadFault>
    ensures ok { IfOk result (IsRead text.now) }
    ensures err { IfErr result (Refuses text.now) }
{
    let graph = read_graph_file(alloc, text)?.into_graph();
    graph.checked();
    Ok(graph)
}

// Declarations, and the places from 0 where they begin.
#[derive(Drop)]
struct Declared {
    decls: Seq<Decl>,
    starts: Seq<usize>,
}

// The declarations of a text that isn't too long.
fn read_decls(alloc: Global, text: &[u8]) -> Result<Declared, ReadFault>
    requires { length text.now ≤ graph_limit }
    ensures ok { IfOk result (λ read. ReadsDecls read.decls read.starts text.now []) }
    ensures err { IfErr result (Refuses text.now) }
{
    let mut cursor = Cursor::new(alloc, text);
    let mut decls = Seq::new(alloc);
    let mut starts = Seq::new(alloc);
    'decls: while !cursor.is_at_end() {
        let start = text.len() - cursor.left();
        let decl = match cursor.decl() {
            Ok(decl) => decl,
            Err(Stop::Unexpected) => return Err(syntax_fault(text, text.len() - cursor.left())),
            Err(Stop::Memory) => return Err(ReadFault::Memory),
        };
        starts.push(start)?;
        decls.push(decl)?;
    }
    Ok(Declared { decls, starts })
}

// A syntax fault at a place, from 0.
fn syntax_fault(text: &[u8], place: usize) -> ReadFault
    requires within { place ≤ length text.now }
    requires short { length text.now ≤ graph_limit }
    ensures { result ≡ syntax_at text.now place }
{
    let front = &text[..place];
    ReadFault::Syntax(line_behind(front) as u32, column_behind(front) as u32)
}

// The fault of a declaration that begins at a place, from 0.
fn check_fault(text: &[u8], place: usize, fault: GraphFault) -> ReadFault
    requires within { place ≤ length text.now }
    requires short { length text.now ≤ graph_limit }
    ensures { result ≡ ReadFault.Check (line_behind (take place text.now)) fault }
{
    ReadFault::Check(line_behind(&text[..place]) as u32, fault)
}
