// The declarations of a derivation graph, and their faults.
use sequences::{Bytes, Copied, Memory, Seq};
use std::alloc::Global;

/// A part of a compound type: its name and the name of its type.
#[derive(PartialEq, Eq, Drop)]
pub struct PartDecl {
    pub name: Bytes,
    pub of: Bytes,
}

/// What the objects of a type are: bytes, a list of a type, or named parts.
#[derive(PartialEq, Eq, Drop)]
pub enum Kind {
    Simple,
    List(Bytes),
    Compound(Seq<PartDecl>),
}

/// A type, its kind and the names of its supertypes.
#[derive(PartialEq, Eq, Drop)]
pub struct TypeDecl {
    pub name: Bytes,
    pub kind: Kind,
    pub supers: Seq<Bytes>,
}

/// The type of the sources whose names end with a suffix.
#[derive(PartialEq, Eq, Drop)]
pub struct SuffixDecl {
    pub suffix: Bytes,
    pub of: Bytes,
}

/// A further input of a tool: the object of a type that the base leads to, or a source by its name.
#[derive(PartialEq, Eq, Drop)]
pub enum Extra {
    Also(Bytes),
    With(Bytes),
}

/// A tool: its version, the words that start it, the parameters that it uses, its further inputs and its scan type.
#[derive(PartialEq, Eq, Drop)]
pub struct ToolDecl {
    pub version: Bytes,
    pub words: Seq<Bytes>,
    pub uses: Seq<Bytes>,
    pub extras: Seq<Extra>,
    pub closure: Option<Bytes>,
}

/// How a maker makes its object.
#[derive(PartialEq, Eq, Drop)]
pub enum Make {
    Tool(ToolDecl),
    Read,
    Each,
    Pack,
}

/// A maker, with the type that it takes and the type that it makes.
#[derive(PartialEq, Eq, Drop)]
pub struct MakerDecl {
    pub name: Bytes,
    pub make: Make,
    pub from: Bytes,
    pub to: Bytes,
}

/// One declaration of a graph.
#[derive(PartialEq, Eq, Drop)]
pub enum Decl {
    ObjectType(TypeDecl),
    Suffix(SuffixDecl),
    Param(Bytes),
    Maker(MakerDecl),
}

/// What may be wrong with a declaration, in the order in which the faults are looked for.
#[derive(Clone, Copy, PartialEq, Eq)]
pub enum GraphFault {
    UnknownType,
    DoubleName,
    SupertypeLoop,
    WrongKind,
    TooMany,
    UnknownParam,
}

impl Copied for PartDecl {
    fn copy(&self, alloc: Global) -> Result<Self, Memory> {
        Ok(PartDecl {
            name: self.name.copy(alloc)?,
            of: self.of.copy(alloc)?,
        })
    }
}

impl Copied for Kind {
    fn copy(&self, alloc: Global) -> Result<Self, Memory> {
        match self {
            Kind::Simple => Ok(Kind::Simple),
            Kind::List(bytes) => Ok(Kind::List(bytes.copy(alloc)?)),
            Kind::Compound(items) => Ok(Kind::Compound(items.copy(alloc)?)),
        }
    }
}

impl Copied for TypeDecl {
    fn copy(&self, alloc: Global) -> Result<Self, Memory> {
        Ok(TypeDecl {
            name: self.name.copy(alloc)?,
            kind: self.kind.copy(alloc)?,
            supers: self.supers.copy(alloc)?,
        })
    }
}

impl Copied for SuffixDecl {
    fn copy(&self, alloc: Global) -> Result<Self, Memory> {
        Ok(SuffixDecl {
            suffix: self.suffix.copy(alloc)?,
            of: self.of.copy(alloc)?,
        })
    }
}

impl Copied for Extra {
    fn copy(&self, alloc: Global) -> Result<Self, Memory> {
        match self {
            Extra::Also(bytes) => Ok(Extra::Also(bytes.copy(alloc)?)),
            Extra::With(bytes) => Ok(Extra::With(bytes.copy(alloc)?)),
        }
    }
}

impl Copied for ToolDecl {
    fn copy(&self, alloc: Global) -> Result<Self, Memory> {
        Ok(ToolDecl {
            version: self.version.copy(alloc)?,
            words: self.words.copy(alloc)?,
            uses: self.uses.copy(alloc)?,
            extras: self.extras.copy(alloc)?,
            closure: self.closure.copy(alloc)?,
        })
    }
}

impl Copied for Make {
    fn copy(&self, alloc: Global) -> Result<Self, Memory> {
        match self {
            Make::Tool(tool) => Ok(Make::Tool(tool.copy(alloc)?)),
            Make::Read => Ok(Make::Read),
            Make::Each => Ok(Make::Each),
            Make::Pack => Ok(Make::Pack),
        }
    }
}

impl Copied for MakerDecl {
    fn copy(&self, alloc: Global) -> Result<Self, Memory> {
        Ok(MakerDecl {
            name: self.name.copy(alloc)?,
            make: self.make.copy(alloc)?,
            from: self.from.copy(alloc)?,
            to: self.to.copy(alloc)?,
        })
    }
}

impl Copied for Decl {
    fn copy(&self, alloc: Global) -> Result<Self, Memory> {
        match self {
            Decl::ObjectType(declared) => Ok(Decl::ObjectType(declared.copy(alloc)?)),
            Decl::Suffix(suffix) => Ok(Decl::Suffix(suffix.copy(alloc)?)),
            Decl::Param(bytes) => Ok(Decl::Param(bytes.copy(alloc)?)),
            Decl::Maker(maker) => Ok(Decl::Maker(maker.copy(alloc)?)),
        }
    }
}

impl Copied for GraphFault {
    fn copy(&self, _alloc: Global) -> Result<Self, Memory> {
        Ok(*self)
    }
}
