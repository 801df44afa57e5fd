// Rows: a node of a graph over results, with what it comes to.
ghost use Rattle.std.specs.Prelude.{◌≢◌, []};
ghost use Rattle.meaning_graph.specs.Grammar.{IsSpellable};
ghost use Rattle.meaning_tasks.specs.Nodes.{Fits};

use super::graphs::{Decls, Text};
use super::held::{Held, Results, put_results};
use super::shown::{are_nodes, is_call, is_view};
use object_values::{Bytes, End, FileBody, Memory, Node, Raw, Seq};
use path_planner::{PlannedGraph, Plans};
use std::alloc::Global;
use test_support::{Fault, Table, body_of, call_node, graph_of, node_in, settle_after};

// A graph, the text of a node, and results. Then the texts of its needs, the file `call` of its
// tool, the files that the tool leaves, and what the node settles to.
pub(super) struct Row {
    pub(super) graph: &'static [Decls],
    pub(super) node: Text,
    pub(super) results: Results,
    pub(super) needs: &'static [Text],
    pub(super) call: Option<Text>,
    pub(super) left: &'static [(Text, Text)],
    pub(super) view: Held,
}

// How a row comes out.
#[derive(Clone, Copy, Debug, PartialEq, Eq)]
pub(super) enum Comes {
    AsWanted,
    WithoutSteps,
    WithoutResults,
    WithOtherNeeds,
    WithAnotherCall,
    WithAnotherView,
}

fn put_decls(text: &mut Bytes, decls: Decls) -> Result<(), Memory> {
    for decl in decls {
        text.extend_from_slice(decl)?;
    }
    Ok(())
}

// The text of a graph.
pub(super) fn text_of(alloc: Global, pieces: &[Decls]) -> Result<Bytes, Memory> {
    let mut text = Bytes::new(alloc);
    for decls in pieces {
        put_decls(&mut text, decls)?;
    }
    Ok(text)
}

// A tool that ended well and left these files.
fn left_of(alloc: Global, rows: &[(Text, Text)]) -> Result<Raw, Memory> {
    let mut files = Seq::new(alloc);
    for (name, body) in rows {
        files.push(file_of(alloc, name, body)?)?;
    }
    Ok(Raw {
        end: End::Exit(0),
        files,
    })
}

fn file_of(alloc: Global, name: &[u8], body: &[u8]) -> Result<FileBody, Memory> {
    Ok(FileBody {
        name: Bytes::from_slice(alloc, name)?,
        body: body_of(alloc, body)?,
    })
}

// How the row comes out.
pub(super) fn run_row(alloc: Global, row: &Row) -> Result<Comes, Fault> {
    let text = text_of(alloc, row.graph)?;
    let graph = graph_of(alloc, text.as_slice())?;
    let plans = Plans::new(alloc, &graph)?;
    run_in(alloc, &PlannedGraph::new(&graph, &plans), row)
}

fn run_in(alloc: Global, planned: &PlannedGraph<'_>, row: &Row) -> Result<Comes, Fault>
    requires spellable { IsSpellable planned.now }
{
    let mut table = Table::new(alloc);
    put_results(alloc, planned, row.results, &mut table)?;
    let node = node_in(alloc, planned, row.node)?;
    if node.steps.is_empty() {
        return Ok(Comes::WithoutSteps);
    }
    Ok(run_over(alloc, planned, &node, &table, row)?)
}

fn run_over(
    alloc: Global,
    planned: &PlannedGraph<'_>,
    node: &Node,
    table: &Table,
    row: &Row,
) -> Result<Comes, Memory>
    requires spellable { IsSpellable planned.now }
    requires fits { Fits planned.now node.now }
    requires stepped { node.now.steps ≢ [] }
{
    let Some(called) = call_node(alloc, planned, node, table)? else {
        return Ok(Comes::WithoutResults);
    };
    if !are_nodes(alloc, planned.graph(), called.needs.as_slice(), row.needs)? {
        return Ok(Comes::WithOtherNeeds);
    }
    if !is_call(alloc, called.call.as_ref(), row.call)? {
        return Ok(Comes::WithAnotherCall);
    }
    let left = left_of(alloc, row.left)?;
    let view = settle_after(
        alloc,
        planned,
        node,
        &called.needed,
        table,
        called.call.as_ref(),
        &left,
    )?;
    if !is_view(alloc, planned.graph(), &view, row.view)? {
        return Ok(Comes::WithAnotherView);
    }
    Ok(Comes::AsWanted)
}
