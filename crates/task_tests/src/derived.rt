// Nodes that are derived from sources by tools, with nothing kept.
ghost use Rattle.std.specs.Prelude.{OnOk, IfOk};
ghost use Rattle.meaning_graph.specs.Grammar.{IsSpellable};
ghost use Rattle.meaning_derive.specs.Given.{AreSources};

use super::graphs::{C_UNITS, Text};
use super::held::{Held, Said};
use super::rows::text_of;
use super::shown::is_view;
use object_values::{BODY_LIMIT, Bytes, Memory, Seq, Sources, Status};
use odin_bytes::is_name;
use odin_fakes::TableTools;
use path_planner::{PlannedGraph, Plans};
use plain_derive::{Found, derive_plain};
use std::alloc::Global;
use std::test::Fail;
use test_support::{Fault, body_of, graph_of, node_in};
use type_graph::Graph;

// Sources over the graph of units, and the text of a node. Then its view, and how many tools were started for it.
struct Row {
    sources: &'static [(Text, Text)],
    node: Text,
    view: Held,
    starts: u64,
}

const NO_SOURCE: &[Said] = &[(Status::Abort, b"a.c", b"no source a.c")];

const ROWS: &[Row] = &[
    Row {
        sources: &[(b"a.c", b"include a.h\nx=1\n"), (b"a.h", b"y=2\n")],
        node: b"a.c:o",
        view: Held::Simple(b"x=1\ny=2\n"),
        starts: 3,
    },
    // a header that two need is scanned once
    Row {
        sources: &[
            (b"m.sm", b"a.c\nb.c\n"),
            (b"a.c", b"include a.h\nx=1\n"),
            (b"b.c", b"include a.h\nz=3\n"),
            (b"a.h", b"y=2\n"),
        ],
        node: b"m.sm:exe",
        view: Held::Simple(b"x=1\ny=2\nz=3\ny=2\n"),
        starts: 6,
    },
    // nothing is started for what isn't there
    Row {
        sources: &[],
        node: b"a.c:o",
        view: Held::Aborted(NO_SOURCE),
        starts: 0,
    },
];

// Adds a source, where it may be one.
fn put_source(alloc: Global, sources: &mut Sources, name: &[u8], text: &[u8]) -> Result<(), Memory>
    requires { AreSources sources.old.texts }
    ensures { OnOk result (AreSources sources.new.texts) }
{
    if !is_name(name) || text.len() > BODY_LIMIT {
        return Ok(());
    }
    sources.reserve()?;
    let name = Bytes::from_slice(alloc, name)?;
    let text = body_of(alloc, text)?;
    sources.put(name, text);
    Ok(())
}

// The sources with these names and texts.
fn sources_of(alloc: Global, rows: &[(Text, Text)]) -> Result<Sources, Memory>
    ensures { IfOk result (λ sources. AreSources sources.texts) }
{
    let mut sources = Sources::new(alloc);
    for (name, text) in rows {
        put_source(alloc, &mut sources, name, text)?;
    }
    Ok(sources)
}

// Whether the node of the row has its view, by just so many tools.
fn derives(alloc: Global, graph: &Graph, row: &Row) -> Result<bool, Fault>
    requires spellable { IsSpellable graph.now }
{
    let plans = Plans::new(alloc, graph)?;
    let sources = sources_of(alloc, row.sources)?;
    let node = node_in(alloc, &PlannedGraph::new(graph, &plans), row.node)?;
    let mut tools = TableTools::toy(alloc, Seq::new(alloc));
    match derive_plain(alloc, graph, &plans, &sources, &node, &mut tools) {
        Ok(Found::Answer(view)) => {
            Ok(tools.starts() == row.starts && is_view(alloc, graph, &view, row.view)?)
        }
        _ => Ok(false),
    }
}

// Whether the row comes out as it is wanted.
fn comes_out(alloc: Global, row: &Row) -> Result<bool, Fault> {
    let text = text_of(alloc, &[C_UNITS])?;
    let graph = graph_of(alloc, text.as_slice())?;
    derives(alloc, &graph, row)
}

#[test]
fn nodes_are_derived(rt: HostRuntime) -> Result<(), Fail> {
    for (place, row) in ROWS.iter().enumerate() {
        assert!(rt; comes_out(rt.alloc(), row)?, "row {place}");
    }
    Ok(())
}
