// The test for double names.
ghost use Rattle.std.specs.Prelude.{◌≡◌, ℕ, IfOk, take};
ghost use Rattle.meaning_graph.specs.Checks.{doubles_name, has_twice, part_names, used_params};
ghost use Rattle.type_graph.specs.Spaces.{counts_of};

use crate::context::Context;
use crate::names::Names;
use crate::spaces::{Counts, Space};
use object_values::{Bytes, Decl, Kind, Make, Memory, PartDecl};
use std::alloc::Global;

impl<'a> Context<'a> {
    /// Whether the declaration's name stands before it in its space, or a part or used parameter twice in it.
    pub(crate) fn doubles_name(
        &self,
        alloc: Global,
        before: &Counts,
        decl: &Decl,
    ) -> Result<bool, Memory>
        ensures { (place : ℕ) → before.now ≡ counts_of (take place self.now)
            → IfOk result (λ doubles. doubles ≡ doubles_name (take place self.now) decl.now) }
    {
        match decl {
            Decl::ObjectType(declared) => {
                if self.stands_before(Space::Types, &declared.name, before.types) {
                    return Ok(true);
                }
                parts_twice(alloc, &declared.kind)
            }
            Decl::Suffix(declared) => Ok(self.stands_before(
                Space::Suffixes,
                &declared.suffix,
                before.suffixes,
            )),
            Decl::Param(name) => Ok(self.stands_before(Space::Params, name, before.params)),
            Decl::Maker(declared) => {
                if self.stands_before(Space::Makers, &declared.name, before.makers) {
                    return Ok(true);
                }
                uses_twice(alloc, &declared.make)
            }
        }
    }
}

fn parts_twice(alloc: Global, kind: &Kind) -> Result<bool, Memory>
    ensures { IfOk result (λ twice. twice ≡ has_twice (part_names kind.now)) }
{
    match kind {
        Kind::Compound(parts) => a_part_twice(alloc, parts.as_slice()),
        _ => Ok(false),
    }
}

fn a_part_twice(alloc: Global, parts: &[PartDecl]) -> Result<bool, Memory>
    ensures { IfOk result (λ twice. twice ≡ has_twice (part_names (Kind.Compound parts.now))) }
{
    let mut names = Names::new(alloc);
    for (place, part) in parts.iter().enumerate() {
        if names.place(part.name.as_slice()).is_some() {
            return Ok(true);
        }
        names.add(alloc, part.name.as_slice(), place)?;
    }
    Ok(false)
}

fn uses_twice(alloc: Global, make: &Make) -> Result<bool, Memory>
    ensures { IfOk result (λ twice. twice ≡ has_twice (used_params make.now)) }
{
    match make {
        Make::Tool(tool) => a_name_twice(alloc, tool.uses.as_slice()),
        _ => Ok(false),
    }
}

fn a_name_twice(alloc: Global, uses: &[Bytes]) -> Result<bool, Memory>
    ensures { IfOk result (λ twice. twice ≡ has_twice uses.now) }
{
    let mut names = Names::new(alloc);
    for (place, name) in uses.iter().enumerate() {
        if names.place(name.as_slice()).is_some() {
            return Ok(true);
        }
        names.add(alloc, name.as_slice(), place)?;
    }
    Ok(false)
}
