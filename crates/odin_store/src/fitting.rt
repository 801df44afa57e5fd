// Whether a record that was just noted fits a graph.
ghost use Rattle.std.specs.Prelude.{◌≡◌, ◌↔◌, IfOk, IsTrue, length};
ghost use Rattle.std.specs.List.{list_all};
ghost use Rattle.meaning_tasks.specs.Nodes.{fits};
ghost use Rattle.meaning_true.specs.Numbered.{value_at};
ghost use Rattle.kept_notes.specs.Facts.{IsNumberIn, IsRecordIn, contents_by, fact_of};
ghost use Rattle.validator.specs.Fitting.{FactFits, fact_fits, value_fits};
ghost use Rattle.odin_store.specs.Fitting.{NodesFit, OthersFit};

use kept_tables::Kept;
use object_values::{Dep, Memory, Node, NodeRecord};
use odin_bytes::is_name;
use odin_nodes::type_of;
use std::alloc::Global;
use type_graph::Graph;
use validator::laws::fitting_is_tested;
use validator::value_fits;

/// Whether a record fits the graph, where the nodes of all others that are kept do. It isn't copied, and a node that has a record isn't tested again.
pub(crate) fn fits_noted(
    alloc: Global,
    graph: &Graph,
    kept: &Kept,
    noted: &NodeRecord,
) -> Result<bool, Memory>
    requires named { IsRecordIn (length kept.now.tables.contents) noted.now }
    requires others { OthersFit graph.now kept.now.records.records noted.now.node }
    ensures { let fact = fact_of kept.now.tables.contents noted.now in
        IfOk result (λ fits. IsTrue fits ↔ FactFits graph.now fact) }
{
    fitting_is_tested();
    test_noted(alloc, graph, kept, noted)
}

#[tactic(auto, using(crate::proofs::FittingLemmas::says_untyped, crate::proofs::FittingLemmas::says_unvalued, crate::proofs::FittingLemmas::says_deps))]
fn test_noted(alloc: Global, graph: &Graph, kept: &Kept, noted: &NodeRecord) -> Result<bool, Memory>
    requires named { IsRecordIn (length kept.now.tables.contents) noted.now }
    requires others { OthersFit graph.now kept.now.records.records noted.now.node }
    ensures { let fact = fact_of kept.now.tables.contents noted.now in
        IfOk result (λ fits. fits ≡ fact_fits graph.now fact) }
{
    match type_of(graph, &noted.node) {
        Some(number) => {
            if !fits_there(alloc, graph, kept, number, noted.value)? {
                return Ok(false);
            }
            Ok(deps_fit(graph, kept, noted.deps.as_slice()))
        }
        None => Ok(false),
    }
}

// Whether the value of a number of a content, where there is one, is of the kind of the type of a number.
fn fits_there(
    alloc: Global,
    graph: &Graph,
    kept: &Kept,
    number: u32,
    content: Option<u64>,
) -> Result<bool, Memory>
    requires { IsNumberIn (length kept.now.tables.contents) content }
    ensures { let value = value_at (contents_by kept.now.tables.contents) content in
        IfOk result (λ fits. fits ≡ value_fits graph.now number value) }
{
    match content {
        Some(id) => {
            let value = kept.value(alloc, id)?;
            Ok(value_fits(graph, number, Some(&value)))
        }
        None => Ok(true),
    }
}

fn deps_fit(graph: &Graph, kept: &Kept, deps: &[Dep]) -> bool
    requires { NodesFit graph.now kept.now.records.records }
    ensures { result ≡ list_all (λ d. fits graph.now d.node) deps.now }
{
    deps.iter().all(|dep| node_fits(graph, kept, &dep.node))
}

// A source needs no look: it has a type, whatever its name is. Nor does the graph where the node has a record.
#[tactic(auto, using(crate::proofs::FittingLemmas::source_fits, crate::proofs::FittingLemmas::typed_fits))]
fn node_fits(graph: &Graph, kept: &Kept, node: &Node) -> bool
    requires { NodesFit graph.now kept.now.records.records }
    ensures { result ≡ fits graph.now node.now }
{
    if node.steps.is_empty() && node.params.is_empty() {
        return is_name(node.source.as_slice());
    }
    match kept.get(node) {
        Some(_) => true,
        None => type_of(graph, node).is_some(),
    }
}
