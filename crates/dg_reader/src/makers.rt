// Makers.
ghost use Rattle.std.specs.Prelude.{◌≡◌, ◌∷◌, [], codes, IfOk, IfErr};
ghost use Rattle.meaning_graph.specs.Going.{any_string, ending, strings, tool_front, expect};
ghost use Rattle.meaning_graph.specs.Going.{way as way_front};
ghost use Rattle.dg_reader.specs.Walks.{TokensHaltAt};
ghost use Rattle.dg_reader.specs.Reads.{ReadsWay, ReadsTool, HeadBehind, HaltsInWay, PlainBehind};

use crate::cursor::{Cursor, Stop, Wanted};
use crate::lexer::Token;
use object_values::{Bytes, Decl, Make, MakerDecl, ToolDecl};

impl<'t> Cursor<'t> {
    /// What stands after `"tool"`.
    pub(crate) fn tool(&mut self) -> Result<Decl, Stop>
        ensures ok { IfOk result (λ decl. HeadBehind (codes "tool") decl self.old self.new) }
        ensures err { IfErr result (TokensHaltAt (expect tool_front strings) self.old self.new) }
    {
        let name = self.take(Wanted::Id)?;
        let version = self.take(Wanted::Word)?;
        let (from, to) = self.way()?;
        self.require(Token::Word(b"run"))?;
        let make = Make::Tool(self.options(version)?);
        Ok(Decl::Maker(MakerDecl {
            name,
            make,
            from,
            to,
        }))
    }

    // What stands after `"run"`.
    fn options(&mut self, version: Bytes) -> Result<ToolDecl, Stop>
        ensures version { IfOk result (λ tool. tool.version ≡ version) }
        ensures ok { IfOk result (λ tool. ReadsTool tool self.old self.new) }
        ensures err { IfErr result
            (TokensHaltAt (expect (any_string ∷ []) strings) self.old self.new) }
    {
        let words = self.strings()?;
        let uses = self.uses()?;
        let extras = self.extras()?;
        let closure = self.closure()?;
        Ok(ToolDecl {
            version,
            words,
            uses,
            extras,
            closure,
        })
    }

    /// What stands after `"read"`, `"each"` or `"pack"`.
    pub(crate) fn plain(&mut self, make: Make) -> Result<Decl, Stop>
        ensures ok { IfOk result (λ decl. PlainBehind make decl self.old self.new) }
        ensures err { IfErr result (TokensHaltAt (expect way_front ending) self.old self.new) }
    {
        let name = self.take(Wanted::Id)?;
        let (from, to) = self.way()?;
        Ok(Decl::Maker(MakerDecl {
            name,
            make,
            from,
            to,
        }))
    }

    // `"from" ID "to" ID`
    fn way(&mut self) -> Result<(Bytes, Bytes), Stop>
        ensures ok { IfOk result (λ way. ReadsWay way.0 way.1 self.old self.new) }
        ensures err { IfErr result (HaltsInWay self.old self.new) }
    {
        self.require(Token::Word(b"from"))?;
        let from = self.take(Wanted::Id)?;
        self.require(Token::Word(b"to"))?;
        let to = self.take(Wanted::Id)?;
        Ok((from, to))
    }
}
