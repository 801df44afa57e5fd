// The list of all needs.
ghost use Rattle.std.specs.Prelude.{◌≡◌, ◌++◌, ◌∷◌, [], IfOk, OnOk, flat_map, map};
ghost use Rattle.meaning_tasks.specs.Nodes.{source_node};
ghost use Rattle.meaning_tasks.specs.Needs.{values_of, with_elements};
ghost use Rattle.task_needs.specs.Counting.{nodes_in};

use crate::counted::Counted;
use crate::results::{Results, elements_of};
use crate::sources::source_node;
use object_values::{Copied, Memory, Node, Seq};
use odin_bytes::Name;
use std::alloc::Global;

/// The counted needs one by one, and after them the sources of the names.
pub fn listed<R: Results>(
    alloc: Global,
    counted: &Counted,
    names: &[Name],
    seen: &R,
) -> Result<Seq<Node>, Memory>
    ensures { let nodes = nodes_in (values_of (R.results seen.now)) counted.now in
        IfOk result (λ needs. needs ≡ nodes ++ map source_node names.now) }
{
    let mut needs = Seq::new(alloc);
    put_whole(alloc, counted.whole.as_slice(), seen, &mut needs)?;
    put_copies(alloc, counted.alone.as_slice(), &mut needs)?;
    put_sources(alloc, names, &mut needs)?;
    Ok(needs)
}

// The nodes, each with its elements.
fn put_whole<R: Results>(
    alloc: Global,
    nodes: &[Node],
    seen: &R,
    needs: &mut Seq<Node>,
) -> Result<(), Memory>
    ensures { let known = values_of (R.results seen.now) in
        OnOk result (needs.new ≡ needs.old ++ flat_map (with_elements known) nodes.now) }
{
    for node in nodes {
        put_with_elements(alloc, node, seen, needs)?;
    }
    Ok(())
}

// The node, and its elements where it has a result that is a list.
fn put_with_elements<R: Results>(
    alloc: Global,
    node: &Node,
    seen: &R,
    needs: &mut Seq<Node>,
) -> Result<(), Memory>
    ensures { let known = values_of (R.results seen.now) in
        OnOk result (needs.new ≡ needs.old ++ with_elements known node.now) }
{
    put_copy(alloc, node, needs)?;
    put_copies(alloc, elements_of(seen, node), needs)
}

fn put_copies(alloc: Global, nodes: &[Node], needs: &mut Seq<Node>) -> Result<(), Memory>
    ensures { OnOk result (needs.new ≡ needs.old ++ nodes.now) }
{
    for node in nodes {
        put_copy(alloc, node, needs)?;
    }
    Ok(())
}

/// Puts a node after those that are there, whether it is one of them or not.
pub fn put_copy(alloc: Global, node: &Node, needs: &mut Seq<Node>) -> Result<(), Memory>
    ensures { OnOk result (needs.new ≡ needs.old ++ node.now ∷ []) }
{
    needs.push(node.copy(alloc)?)
}

fn put_sources(alloc: Global, names: &[Name], needs: &mut Seq<Node>) -> Result<(), Memory>
    ensures { OnOk result (needs.new ≡ needs.old ++ map source_node names.now) }
{
    for name in names {
        needs.push(source_node(alloc, name.as_slice())?)?;
    }
    Ok(())
}
