// The tables by number that a checked graph keeps.
ghost use Rattle.std.specs.Prelude.{◌≡◌, ◌≤◌, [], IfOk, IfErr, OnOk, length};
ghost use Rattle.meaning_texts.specs.Limits.{declaration_limit};
ghost use Rattle.type_graph.specs.Faults.{IsCheckFaultOf};
ghost use Rattle.type_graph.specs.Tables.{suffix_types, ArePlacesOfMakers, AreNumbers, AreTables};

use crate::context::Context;
use crate::fault::CheckFault;
use crate::faults::check;
use crate::rows::Rows;
use crate::spaces::Spaces;
use object_values::{Decl, Memory, Seq, when_done};
use std::alloc::Global;

/// The tables that belong to checked declarations.
pub(crate) struct Tables {
    pub(crate) spaces: Spaces,
    pub(crate) numbers: Numbers,
    pub(crate) rows: Rows,
}

impl Drop for Tables {
    fn drop(self) {
        let Tables {
            spaces,
            numbers,
            rows,
        } = self;
        drop(spaces);
        drop(numbers);
        drop(rows);
    }
}

/// The tables by number: the type of each suffix, and the place of each maker.
pub(crate) struct Numbers {
    pub(crate) suffix_types: Seq<u32>,
    pub(crate) maker_places: Seq<u32>,
}

impl Drop for Numbers {
    fn drop(self) {
        let Numbers {
            suffix_types,
            maker_places,
        } = self;
        drop(suffix_types);
        drop(maker_places);
    }
}

impl Tables {
    /// Checks declarations, and makes their tables.
    pub(crate) fn new(alloc: Global, decls: &[Decl]) -> Result<Self, CheckFault>
        ensures ok { IfOk result (AreTables decls.now) }
        ensures err { IfErr result (IsCheckFaultOf decls.now) }
    {
        let context = Context::new(alloc, decls)?;
        check(alloc, &context, decls)?;
        let numbers = Numbers::new(alloc, &context, decls)?;
        let (spaces, rows) = context.into_parts();
        Ok(Tables {
            spaces,
            numbers,
            rows,
        })
    }
}

impl Numbers {
    fn new(alloc: Global, context: &Context, decls: &[Decl]) -> Result<Self, Memory>
        requires same { context.now ≡ decls.now }
        requires few { length decls.now ≤ declaration_limit }
        ensures { IfOk result (AreNumbers decls.now) }
    {
        let mut numbers = Numbers {
            suffix_types: Seq::new(alloc),
            maker_places: Seq::new(alloc),
        };
        let done = numbers.fill(context, decls);
        when_done(done, numbers)
    }

    // Makes the tables, which are empty before.
    fn fill(&mut self, context: &Context, decls: &[Decl]) -> Result<(), Memory>
        requires same { context.now ≡ decls.now }
        requires few { length decls.now ≤ declaration_limit }
        requires empty { self.old ≡ record { suffix_types = []; maker_places = [] } }
        ensures { OnOk result (AreNumbers decls.now self.new) }
    {
        fill_suffix_types(&mut self.suffix_types, context, decls)?;
        fill_maker_places(&mut self.maker_places, decls)
    }
}

// The number of the type of each suffix.
fn fill_suffix_types(made: &mut Seq<u32>, context: &Context, decls: &[Decl]) -> Result<(), Memory>
    requires same { context.now ≡ decls.now }
    requires few { length decls.now ≤ declaration_limit }
    requires empty { made.old ≡ [] }
    ensures { OnOk result (made.new ≡ suffix_types decls.now) }
{
    for decl in decls {
        if let Decl::Suffix(declared) = decl {
            made.push(context.number(&declared.of).unwrap_or(0) as u32)?;
        }
    }
    Ok(())
}

// The place of each maker among the declarations.
fn fill_maker_places(places: &mut Seq<u32>, decls: &[Decl]) -> Result<(), Memory>
    requires few { length decls.now ≤ declaration_limit }
    requires empty { places.old ≡ [] }
    ensures { OnOk result (ArePlacesOfMakers decls.now places.new) }
{
    for (place, decl) in decls.iter().enumerate() {
        if let Decl::Maker(_) = decl {
            places.push(place as u32)?;
        }
    }
    Ok(())
}
