// Whether a record fits a graph.
ghost use Rattle.std.specs.Prelude.{◌≡◌, ◌↔◌, ◌<◌, IfSome, IsTrue, length, option_map};
ghost use Rattle.std.specs.Option.{option_copied};
ghost use Rattle.std.specs.List.{list_all};
ghost use Rattle.meaning_graph.specs.Graphs.{as_type, type_named, types};
ghost use Rattle.meaning_tasks.specs.Nodes.{fits, type_of as type_of_node};
ghost use Rattle.odin_nodes.specs.Kinds.{declared_at};
ghost use Rattle.validator.specs.Fitting.{FactFits, are_named, fact_fits, fits_typed, is_of_kind, kind_or_simple, serves, value_fits};

use object_values::{Decl, Fact, FactDep, Kind, Node, Part, PartDecl, TypeDecl, Value};
use odin_nodes::type_of;
use type_graph::Graph;

/// Whether the nodes of a record fit the graph, and its value has the kind, the element type or the part names of its node's type.
// The values of its deps aren't looked at: no rule of a file asks it, and where the record is true, they are results of their nodes.
#[tactic(auto, using(crate::proofs::FitLemmas::fact_decides))]
pub fn fits_record(graph: &Graph, fact: &Fact) -> bool
    ensures { IsTrue result ↔ FactFits graph.now fact.now }
{
    test_record(graph, fact)
}

fn test_record(graph: &Graph, fact: &Fact) -> bool
    ensures { result ≡ fact_fits graph.now fact.now }
{
    match type_of(graph, &fact.node) {
        Some(number) => {
            value_fits(graph, number, fact.value.as_ref()) && deps_fit(graph, fact.deps.as_slice())
        }
        None => false,
    }
}

fn deps_fit(graph: &Graph, deps: &[FactDep]) -> bool
    ensures { result ≡ list_all (λ d. fits graph.now d.node) deps.now }
{
    deps.iter().all(|dep| fits(graph, &dep.node))
}

fn fits(graph: &Graph, node: &Node) -> bool
    ensures { result ≡ fits graph.now node.now }
{
    type_of(graph, node).is_some()
}

/// Whether a value, where there is one, is of the kind of the type of a number.
pub fn value_fits(graph: &Graph, number: u32, value: Option<&Value>) -> bool
    ensures { result ≡ value_fits graph.now number (option_copied value.entry) }
{
    match value {
        Some(value) => is_of_kind(graph, declared_kind(graph.decls(), number), value),
        None => true,
    }
}

// The kind of the type of a number. `None` for `text`, which isn't declared and is simple.
fn declared_kind(decls: &[Decl], number: u32) -> Option<&Kind>
    ensures { option_copied result ≡ declared_at decls.now number }
{
    if number == 0 {
        return None;
    }
    let mut left = number - 1;
    for decl in decls {
        if let Some(declared) = as_type(decl) {
            if left == 0 {
                return Some(&declared.kind);
            }
            left -= 1;
        }
    }
    None
}

fn as_type(decl: &Decl) -> Option<&TypeDecl>
    ensures { option_copied result ≡ as_type decl.now }
{
    match decl {
        Decl::ObjectType(declared) => Some(declared),
        _ => None,
    }
}

// Whether a value is of the kind, or simple where there is none.
fn is_of_kind(graph: &Graph, kind: Option<&Kind>, value: &Value) -> bool
    ensures { let kind = kind_or_simple (option_copied kind.entry) in
        result ≡ is_of_kind graph.now kind value.now }
{
    match (kind, value) {
        (None, Value::Simple(_)) => true,
        (Some(Kind::Simple), Value::Simple(_)) => true,
        (Some(Kind::List(of)), Value::List(elements)) => {
            are_elements(graph, of.as_slice(), elements.as_slice())
        }
        (Some(Kind::Compound(declared)), Value::Compound(parts)) => {
            are_named(parts.as_slice(), declared.as_slice())
        }
        _ => false,
    }
}

// The type of the elements is looked up once for all of them.
fn are_elements(graph: &Graph, of: &[u8], elements: &[Node]) -> bool
    ensures { let named = type_named graph.now of.now in
        result ≡ list_all (λ e. serves graph.now named (type_of_node graph.now e)) elements.now }
{
    let named = graph.type_named(of);
    elements
        .iter()
        .all(|element| is_element(graph, named, element))
}

#[tactic(auto, using(crate::proofs::FitLemmas::type_below))]
fn is_element(graph: &Graph, named: Option<u32>, element: &Node) -> bool
    requires { IfSome named (λ t. t < length (types graph.now)) }
    ensures { result ≡ serves graph.now named (type_of_node graph.now element.now) }
{
    match (named, type_of(graph, element)) {
        (Some(named), Some(at)) => graph.is_a(at, named),
        _ => false,
    }
}

// Whether the parts have the names that are declared, in their order.
#[tactic(auto, using(crate::proofs::FitLemmas::apart_unnamed))]
fn are_named(parts: &[Part], declared: &[PartDecl]) -> bool
    ensures { result ≡ are_named parts.now declared.now }
{
    if parts.len() != declared.len() {
        return false;
    }
    for (place, part) in parts.iter().enumerate() {
        if part.name != declared[place].name {
            return false;
        }
    }
    true
}
