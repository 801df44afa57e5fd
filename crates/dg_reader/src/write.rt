// The canonical spelling of a graph.
ghost use Rattle.std.specs.Prelude.{◌≡◌, ◌++◌, true, IfOk, OnOk};
ghost use Rattle.meaning_graph.specs.Grammar.{kind_tokens, closure_tokens, way_tokens, tool_tokens, decl_tokens, IsSpellable, GraphText};
ghost use Rattle.meaning_graph.specs.Spelling.{graph_spelling};
ghost use Rattle.dg_reader.specs.Written.{Writes, type_tokens, front_tokens, line_spelling};

use crate::lexer::Token;
use crate::writer::Writer;
use object_values::{Bytes, Decl, Kind, Make, MakerDecl, Memory, SuffixDecl, ToolDecl, TypeDecl};
use std::alloc::Global;
use type_graph::Graph;

/// The canonical spelling of a graph. It reads back as the same declarations where these are spellable, as those of a read graph
/// are, and where it has at most 1,048,576 bytes.
pub fn write_graph(alloc: Global, graph: &Graph) -> Result<Bytes, Memory>
    ensures value { IfOk result (λ text. text ≡ graph_spelling graph.now) }
    ensures reads_back { IsSpellable graph.now → IfOk result (λ text. GraphText text graph.now) }
{
    graph.checked();
    let mut writer = Writer {
        out: Bytes::new(alloc),
        glued: true,
    };
    'decls: for decl in graph.decls() {
        writer.line(decl)?;
    }
    Ok(writer.out)
}

impl Writer {
    // A declaration on a line of its own.
    fn line(&mut self, decl: &Decl) -> Result<(), Memory>
        requires { self.old.glued ≡ true }
        ensures out { OnOk result (self.new.out ≡ self.old.out ++ line_spelling decl.now) }
        ensures glued { OnOk result (self.new.glued ≡ true) }
    {
        self.decl(decl)?;
        self.token(Token::Semicolon)?;
        self.out.push(b'\n')?;
        self.glued = true;
        Ok(())
    }

    fn decl(&mut self, decl: &Decl) -> Result<(), Memory>
        ensures { OnOk result (Writes (decl_tokens decl.now) self.old self.new) }
    {
        match decl {
            Decl::ObjectType(declared) => self.type_decl(declared),
            Decl::Suffix(suffix) => self.suffix(suffix),
            Decl::Param(id) => self.param(id.as_slice()),
            Decl::Maker(maker) => self.maker(maker),
        }
    }

    fn type_decl(&mut self, declared: &TypeDecl) -> Result<(), Memory>
        ensures { OnOk result (Writes (type_tokens declared.now) self.old self.new) }
    {
        self.word(b"type")?;
        self.word(declared.name.as_slice())?;
        self.kind(&declared.kind, declared.supers.as_slice())
    }

    fn kind(&mut self, kind: &Kind, supers: &[Bytes]) -> Result<(), Memory>
        ensures { OnOk result (Writes (kind_tokens kind.now supers.now) self.old self.new) }
    {
        match kind {
            Kind::Simple => {
                self.word(b"simple")?;
                self.optional(b"is", supers)
            }
            Kind::List(of) => {
                self.word(b"list")?;
                self.word(b"of")?;
                self.word(of.as_slice())?;
                self.optional(b"is", supers)
            }
            Kind::Compound(parts) => {
                self.word(b"compound")?;
                self.token(Token::Opening)?;
                self.parts(parts.as_slice())?;
                self.token(Token::Closing)
            }
        }
    }

    fn suffix(&mut self, suffix: &SuffixDecl) -> Result<(), Memory>
        ensures { OnOk result (Writes (decl_tokens (Decl.Suffix suffix.now)) self.old self.new) }
    {
        self.word(b"suffix")?;
        self.word(suffix.suffix.as_slice())?;
        self.word(suffix.of.as_slice())
    }

    fn param(&mut self, id: &[u8]) -> Result<(), Memory>
        ensures { OnOk result (Writes (decl_tokens (Decl.Param id.now)) self.old self.new) }
    {
        self.word(b"param")?;
        self.word(id)
    }

    fn maker(&mut self, maker: &MakerDecl) -> Result<(), Memory>
        ensures { OnOk result (Writes (decl_tokens (Decl.Maker maker.now)) self.old self.new) }
    {
        match &maker.make {
            Make::Tool(tool) => self.tool(maker, tool),
            Make::Read => self.plain(b"read", maker),
            Make::Each => self.plain(b"each", maker),
            Make::Pack => self.plain(b"pack", maker),
        }
    }

    fn plain(&mut self, keyword: &[u8], maker: &MakerDecl) -> Result<(), Memory>
        ensures { OnOk result (Writes (front_tokens keyword.now maker.now) self.old self.new) }
    {
        self.word(keyword)?;
        self.word(maker.name.as_slice())?;
        self.way(maker)
    }

    fn tool(&mut self, maker: &MakerDecl, tool: &ToolDecl) -> Result<(), Memory>
        ensures { OnOk result (Writes (tool_tokens maker.now tool.now) self.old self.new) }
    {
        self.word(b"tool")?;
        self.word(maker.name.as_slice())?;
        self.word(tool.version.as_slice())?;
        self.way(maker)?;
        self.word(b"run")?;
        self.strings(tool.words.as_slice())?;
        self.optional(b"uses", tool.uses.as_slice())?;
        self.extras(tool.extras.as_slice())?;
        self.closure(&tool.closure)
    }

    // `"from" ID "to" ID`
    fn way(&mut self, maker: &MakerDecl) -> Result<(), Memory>
        ensures { OnOk result (Writes (way_tokens maker.now) self.old self.new) }
    {
        self.word(b"from")?;
        self.word(maker.from.as_slice())?;
        self.word(b"to")?;
        self.word(maker.to.as_slice())
    }

    fn closure(&mut self, closure: &Option<Bytes>) -> Result<(), Memory>
        ensures { OnOk result (Writes (closure_tokens closure.now) self.old self.new) }
    {
        let Some(id) = closure else {
            return Ok(());
        };
        self.word(b"closure")?;
        self.word(id.as_slice())
    }
}
