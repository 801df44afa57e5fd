// What a tool makes, and the parameters that it uses.
ghost use Rattle.std.specs.Prelude.{◌≡◌, bytes_eq, filter, map, option_map, IfOk};
ghost use Rattle.std.specs.List.{list_any};
ghost use Rattle.meaning_graph.specs.Graphs.{kind_named};
ghost use Rattle.meaning_tasks.specs.Tasks.{is_compound, outs_of};

use object_values::{Bytes, Copied, Kind, MakerDecl, Memory, ParamValue, PartDecl, Seq};
use odin_nodes::kind_named;
use std::alloc::Global;
use type_graph::Graph;

/// The names of the outputs of a maker: that of the type, or those of the parts of a compound.
pub(crate) fn outs_of(alloc: Global, graph: &Graph, maker: &MakerDecl) -> Result<Seq<Bytes>, Memory>
    ensures { let kind = kind_named graph.now maker.now.to in
        IfOk result (λ outs. outs ≡ outs_of maker.now.to kind) }
{
    outs_of_kind(alloc, &maker.to, kind_named(graph, maker.to.as_slice()))
}

fn outs_of_kind(alloc: Global, made: &Bytes, kind: Option<&Kind>) -> Result<Seq<Bytes>, Memory>
    ensures { let kind = option_map (λ k. k.now) kind.entry in
        IfOk result (λ outs. outs ≡ outs_of made.now kind) }
{
    match kind {
        Some(Kind::Compound(parts)) => part_names(alloc, parts.as_slice()),
        _ => {
            let mut outs = Seq::new(alloc);
            outs.push(made.copy(alloc)?)?;
            Ok(outs)
        }
    }
}

/// Whether the maker makes a compound.
pub(crate) fn makes_compound(graph: &Graph, maker: &MakerDecl) -> bool
    ensures { result ≡ is_compound (kind_named graph.now maker.now.to) }
{
    is_compound(kind_named(graph, maker.to.as_slice()))
}

fn is_compound(kind: Option<&Kind>) -> bool
    ensures { result ≡ is_compound (option_map (λ k. k.now) kind.entry) }
{
    matches!(kind, Some(Kind::Compound(_)))
}

fn part_names(alloc: Global, parts: &[PartDecl]) -> Result<Seq<Bytes>, Memory>
    ensures { IfOk result (λ names. names ≡ map (λ p. p.name) parts.now) }
{
    let mut names = Seq::new(alloc);
    for part in parts {
        names.push(part.name.copy(alloc)?)?;
    }
    Ok(names)
}

/// The parameters of these names, each with its value, in their order.
pub(crate) fn used_params(
    alloc: Global,
    params: &[ParamValue],
    names: &[Bytes],
) -> Result<Seq<ParamValue>, Memory>
    ensures { IfOk result (λ used. used ≡
        filter (λ p. list_any (bytes_eq p.param) names.now) params.now) }
{
    let mut used = Seq::new(alloc);
    for param in params {
        if is_used(param, names) {
            used.push(param.copy(alloc)?)?;
        }
    }
    Ok(used)
}

// Whether the parameter has one of these names.
fn is_used(param: &ParamValue, names: &[Bytes]) -> bool
    ensures { result ≡ list_any (bytes_eq param.now.param) names.now }
{
    names.iter().any(|name| param.param == *name)
}
