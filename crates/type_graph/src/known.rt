// The tests for unknown types and unknown parameters.
ghost use Rattle.std.specs.Prelude.{◌≡◌, not};
ghost use Rattle.std.specs.List.{list_any, list_all};
ghost use Rattle.std.specs.Option.{option_to_list};
ghost use Rattle.meaning_graph.specs.Graphs.{has_param};
ghost use Rattle.type_graph.specs.Shapes.{knows_extra};
ghost use Rattle.meaning_graph.specs.Checks.{is_known, kind_types, make_types, all_types_known, uses_unknown_param};

use crate::context::Context;
use object_values::{Bytes, Decl, Extra, Kind, Make, PartDecl};

impl<'a> Context<'a> {
    /// Whether each type that the declaration names is declared.
    pub(crate) fn all_types_known(&self, decl: &Decl) -> bool
        ensures { result ≡ all_types_known self.now decl.now }
    {
        match decl {
            Decl::ObjectType(declared) => {
                self.knows_kind(&declared.kind) && self.knows_all(declared.supers.as_slice())
            }
            Decl::Suffix(declared) => self.knows(&declared.of),
            Decl::Param(_) => true,
            Decl::Maker(declared) => {
                self.knows(&declared.from)
                    && self.knows(&declared.to)
                    && self.knows_make(&declared.make)
            }
        }
    }

    /// Whether the declaration uses a parameter that is nowhere declared.
    pub(crate) fn uses_unknown_param(&self, decl: &Decl) -> bool
        ensures { result ≡ uses_unknown_param self.now decl.now }
    {
        match decl {
            Decl::Maker(declared) => match &declared.make {
                Make::Tool(tool) => self.lacks_param(tool.uses.as_slice()),
                _ => false,
            },
            _ => false,
        }
    }

    fn knows_all(&self, names: &[Bytes]) -> bool
        ensures { result ≡ list_all (is_known self.now) names.now }
    {
        names.iter().all(|name| self.knows(name))
    }

    fn knows_kind(&self, kind: &Kind) -> bool
        ensures { result ≡ list_all (is_known self.now) (kind_types kind.now) }
    {
        match kind {
            Kind::Simple => true,
            Kind::List(of) => self.knows(of),
            Kind::Compound(parts) => self.knows_parts(parts.as_slice()),
        }
    }

    fn knows_parts(&self, parts: &[PartDecl]) -> bool
        ensures { result ≡ list_all (λ part. is_known self.now part.of) parts.now }
    {
        parts.iter().all(|part| self.knows(&part.of))
    }

    fn knows_make(&self, make: &Make) -> bool
        ensures { result ≡ list_all (is_known self.now) (make_types make.now) }
    {
        match make {
            Make::Tool(tool) => {
                self.knows_extras(tool.extras.as_slice()) && self.knows_scan(&tool.closure)
            }
            _ => true,
        }
    }

    fn knows_extras(&self, extras: &[Extra]) -> bool
        ensures { result ≡ list_all (knows_extra self.now) extras.now }
    {
        extras.iter().all(|extra| self.knows_extra(extra))
    }

    fn knows_extra(&self, extra: &Extra) -> bool
        ensures { result ≡ knows_extra self.now extra.now }
    {
        match extra {
            Extra::Also(of) => self.knows(of),
            Extra::With(_) => true,
        }
    }

    fn knows_scan(&self, scan: &Option<Bytes>) -> bool
        ensures { result ≡ list_all (is_known self.now) (option_to_list scan.now) }
    {
        match scan {
            Some(of) => self.knows(of),
            None => true,
        }
    }

    fn lacks_param(&self, names: &[Bytes]) -> bool
        ensures { result ≡ list_any (λ name. not (has_param self.now name)) names.now }
    {
        names.iter().any(|name| !self.has_param(name))
    }
}
