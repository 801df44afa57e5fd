// The rules of kinds.
ghost use Rattle.std.specs.Prelude.{◌≡◌, IfOk};
ghost use Rattle.std.specs.List.{list_all};
ghost use Rattle.std.specs.Option.{option_to_list};
ghost use Rattle.meaning_graph.specs.Graphs.{type_named};
ghost use Rattle.meaning_graph.specs.Checks.{is_simple, is_list, is_compound, keeps_kind, keeps_rules};
ghost use Rattle.type_graph.specs.Shapes.{fits_named, supers_fit, keeps_type, maker_keeps, IsRowAbove};

use crate::context::{Context, Shape};
use object_values::{Bytes, Decl, Kind, Make, MakerDecl, Memory, PartDecl, Seq, TypeDecl};
use std::alloc::Global;

impl<'a> Context<'a> {
    /// Whether the declaration keeps the rules of kinds.
    pub(crate) fn keeps_rules(&self, alloc: Global, decl: &Decl) -> Result<bool, Memory>
        ensures { IfOk result (λ keeps. keeps ≡ keeps_rules self.now decl.now) }
    {
        match decl {
            Decl::ObjectType(declared) => self.type_fits(alloc, declared),
            Decl::Suffix(declared) => Ok(self.is_simple(&declared.of)),
            Decl::Param(_) => Ok(true),
            Decl::Maker(declared) => Ok(self.maker_fits(declared)),
        }
    }

    fn is_simple(&self, name: &Bytes) -> bool
        ensures { result ≡ is_simple self.now name.now }
    {
        matches!(self.shape(name), Some(Shape::Simple))
    }

    fn is_list(&self, name: &Bytes) -> bool
        ensures { result ≡ is_list self.now name.now }
    {
        matches!(self.shape(name), Some(Shape::List(_)))
    }

    fn is_compound(&self, name: &Bytes) -> bool
        ensures { result ≡ is_compound self.now name.now }
    {
        matches!(self.shape(name), Some(Shape::Compound))
    }

    fn type_fits(&self, alloc: Global, declared: &TypeDecl) -> Result<bool, Memory>
        ensures { IfOk result (λ keeps. keeps ≡ keeps_type self.now declared.now) }
    {
        if !self.kind_fits(&declared.kind) {
            return Ok(false);
        }
        self.supers_fit(alloc, &declared.kind, declared.supers.as_slice())
    }

    // Elements and parts are simple.
    fn kind_fits(&self, kind: &Kind) -> bool
        ensures { result ≡ keeps_kind self.now kind.now }
    {
        match kind {
            Kind::Simple => true,
            Kind::List(of) => self.is_simple(of),
            Kind::Compound(parts) => self.parts_simple(parts.as_slice()),
        }
    }

    fn parts_simple(&self, parts: &[PartDecl]) -> bool
        ensures { result ≡ list_all (λ part. is_simple self.now part.of) parts.now }
    {
        parts.iter().all(|part| self.is_simple(&part.of))
    }

    // A supertype is of the same kind, and a compound has none.
    fn supers_fit(&self, alloc: Global, kind: &Kind, supers: &[Bytes]) -> Result<bool, Memory>
        ensures { IfOk result (λ fit. fit ≡ supers_fit self.now kind.now supers.now) }
    {
        match kind {
            Kind::Simple => Ok(supers.iter().all(|name| self.is_simple(name))),
            Kind::List(of) => self.lists_fit(alloc, of, supers),
            Kind::Compound(_) => Ok(supers.is_empty()),
        }
    }

    // The elements of a list are those of each list that it is.
    fn lists_fit(&self, alloc: Global, of: &Bytes, supers: &[Bytes]) -> Result<bool, Memory>
        ensures { IfOk result (λ fit. fit ≡ supers_fit self.now (Kind.List of.now) supers.now) }
    {
        if supers.is_empty() {
            return Ok(true);
        }
        let above = self.above_name(alloc, of)?;
        Ok(self.all_fit(above.as_slice(), supers))
    }

    // Which types the type of the name is.
    fn above_name(&self, alloc: Global, of: &Bytes) -> Result<Seq<bool>, Memory>
        ensures { IfOk result (IsRowAbove self.now (option_to_list (type_named self.now of.now))) }
    {
        match self.number(of) {
            Some(number) => self.above(alloc, &[number]),
            None => self.above(alloc, &[]),
        }
    }

    fn all_fit(&self, above: &[bool], supers: &[Bytes]) -> bool
        ensures { result ≡ list_all (fits_named self.now above.now) supers.now }
    {
        supers.iter().all(|name| self.list_fits(above, name))
    }

    fn list_fits(&self, above: &[bool], name: &Bytes) -> bool
        ensures { result ≡ fits_named self.now above.now name.now }
    {
        match self.shape(name) {
            Some(Shape::List(Some(elements))) => match above.get(elements) {
                Some(fits) => *fits,
                None => false,
            },
            Some(Shape::List(None)) => true,
            _ => false,
        }
    }

    fn maker_fits(&self, declared: &MakerDecl) -> bool
        ensures { result ≡ maker_keeps self.now declared.now }
    {
        let (from, to) = (&declared.from, &declared.to);
        match &declared.make {
            Make::Tool(tool) => {
                let scans_simple = match &tool.closure {
                    Some(scan) => self.is_simple(scan),
                    None => true,
                };
                (self.is_simple(to) || self.is_compound(to)) && scans_simple
            }
            Make::Read => self.is_simple(from) && self.is_list(to),
            Make::Each => self.is_list(from) && self.is_list(to),
            Make::Pack => self.is_compound(to),
        }
    }
}
