// A graph that is checked, with the tables that answer from it.
ghost use Rattle.std.specs.Prelude.{◌≡◌, ◌<◌, IfOk, IfErr, length, option_map, slice_get};
ghost use Rattle.meaning_graph.specs.Graphs.{types, makers, type_named, has_param};
ghost use Rattle.meaning_graph.specs.Suffixes.{source_type};
ghost use Rattle.meaning_graph.specs.Types.{is_a};
ghost use Rattle.meaning_graph.specs.Checks.{Checked};
ghost use Rattle.type_graph.specs.Faults.{IsCheckFaultOf};

use crate::fault::CheckFault;
use crate::tables::Tables;
use object_values::{Decl, MakerDecl, Seq};
use std::alloc::Global;
use std::marker::Model;

/// A checked graph. Contracts see its declarations.
pub struct Graph {
    decls: Seq<Decl>,
    tables: Tables,
}

impl Drop for Graph {
    fn drop(self) {
        let Graph { decls, tables } = self;
        drop(decls);
        drop(tables);
    }
}

impl Model for Graph {
    ghost use Rattle.std.specs.Prelude.{List};
    ghost use Rattle.object_values.specs.declared.graph.Decl.{Decl};
    ghost use Rattle.type_graph.specs.Tables.{AreTables};

    ghost Value = { List Decl };

    ghost view = { λ g. g.decls };

    ghost invariant = { λ g. AreTables g.decls g.tables };
}

impl Graph {
    /// Checks declarations. The answered fault has the least declaration number, from 1, and there the least fault number.
    pub fn check(alloc: Global, decls: Seq<Decl>) -> Result<Self, CheckFault>
        ensures ok { IfOk result (λ graph. graph ≡ decls) }
        ensures checked { IfOk result (λ graph. Checked decls) }
        ensures err { IfErr result (IsCheckFaultOf decls) }
    {
        let tables = Tables::new(alloc, decls.as_slice())?;
        Ok(Graph { decls, tables })
    }

    pub fn decls(&self) -> &[Decl]
        ensures { result.now ≡ self.now }
    {
        self.decls.as_slice()
    }

    /// The maker of a number, from 0 in the order of the declarations.
    pub fn maker(&self, number: u32) -> Option<&MakerDecl>
        ensures { option_map (λ maker. maker.now) result ≡ slice_get (makers self.now) number }
    {
        let place = *self
            .tables
            .numbers
            .maker_places
            .as_slice()
            .get(number as usize)?;
        match self.decls.as_slice().get(place as usize)? {
            Decl::Maker(maker) => Some(maker),
            _ => None,
        }
    }

    /// The number of the type that a name means. `text` is 0, and the declared types follow from 1.
    pub fn type_named(&self, name: &[u8]) -> Option<u32>
        ensures { result ≡ type_named self.now name.now }
    {
        let place = self.tables.spaces.types.place(name)?;
        Some(place as u32)
    }

    pub fn has_param(&self, name: &[u8]) -> bool
        ensures { result ≡ has_param self.now name.now }
    {
        self.tables.spaces.params.place(name).is_some()
    }

    /// Whether an object of the first type serves as one of the second.
    pub fn is_a(&self, a: u32, b: u32) -> bool
        requires lower { a < length (types self.now) }
        requires upper { b < length (types self.now) }
        ensures { result ≡ is_a self.now a b }
    {
        self.tables.rows.has(a as usize, b as usize)
    }

    /// The type of a source: that of the longest declared suffix of its name, or `text`.
    pub fn source_type(&self, name: &[u8]) -> u32
        ensures { result ≡ source_type self.now name.now }
    {
        let mut rest = name;
        loop {
            if let Some(place) = self.tables.spaces.suffixes.place(rest) {
                return self.tables.numbers.suffix_types.as_slice()[place];
            }
            match rest.split_first() {
                Some((_, shorter)) => rest = shorter,
                None => return 0,
            }
        }
    }

    pub fn type_count(&self) -> u32
        ensures { result ≡ length (types self.now) }
    {
        self.tables.rows.count() as u32
    }

    pub fn maker_count(&self) -> u32
        ensures { result ≡ length (makers self.now) }
    {
        self.tables.numbers.maker_places.len() as u32
    }

    /// Each graph is checked.
    pub fn checked(&self)
        ensures { Checked self.now }
    {
        let _ = &self.decls;
    }
}
