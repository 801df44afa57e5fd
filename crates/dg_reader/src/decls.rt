// Declarations.
ghost use Rattle.std.specs.Prelude.{◌≢◌, [], codes, IfOk, IfErr};
ghost use Rattle.meaning_graph.specs.Going.{ending, start, expect};
ghost use Rattle.meaning_graph.specs.Going.{kind as kind_stage};
ghost use Rattle.dg_reader.specs.Walks.{TokensHaltAt};
ghost use Rattle.dg_reader.specs.Reads.{HeadBehind, ReadsHead, ReadsDecl, an_id, word_and_id};

use crate::cursor::{Cursor, Stop, Wanted};
use crate::lexer::Token;
use object_values::{Decl, Make, SuffixDecl, TypeDecl};

impl<'t> Cursor<'t> {
    /// One declaration with its `;`.
    pub(crate) fn decl(&mut self) -> Result<Decl, Stop>
        requires { self.old ≢ [] }
        ensures ok { IfOk result (λ decl. ReadsDecl decl self.old self.new) }
        ensures err { IfErr result (TokensHaltAt start self.old self.new) }
    {
        let decl = self.head()?;
        self.require(Token::Semicolon)?;
        Ok(decl)
    }

    // A declaration up to its `;`.
    fn head(&mut self) -> Result<Decl, Stop>
        requires { self.old ≢ [] }
        ensures ok { IfOk result (λ decl. ReadsHead decl self.old self.new) }
        ensures err { IfErr result (TokensHaltAt start self.old self.new) }
    {
        if self.skip(Token::Word(b"type")) {
            return self.type_decl();
        }
        if self.skip(Token::Word(b"suffix")) {
            return self.suffix();
        }
        if self.skip(Token::Word(b"param")) {
            return self.param();
        }
        if self.skip(Token::Word(b"tool")) {
            return self.tool();
        }
        if self.skip(Token::Word(b"read")) {
            return self.plain(Make::Read);
        }
        if self.skip(Token::Word(b"each")) {
            return self.plain(Make::Each);
        }
        if self.skip(Token::Word(b"pack")) {
            return self.plain(Make::Pack);
        }
        Err(Stop::Unexpected)
    }

    // `ID kind`
    fn type_decl(&mut self) -> Result<Decl, Stop>
        ensures ok { IfOk result (λ decl. HeadBehind (codes "type") decl self.old self.new) }
        ensures err { IfErr result (TokensHaltAt (expect an_id kind_stage) self.old self.new) }
    {
        let name = self.take(Wanted::Id)?;
        let (kind, supers) = self.kind()?;
        Ok(Decl::ObjectType(TypeDecl { name, kind, supers }))
    }

    // `WORD ID`
    fn suffix(&mut self) -> Result<Decl, Stop>
        ensures ok { IfOk result (λ decl. HeadBehind (codes "suffix") decl self.old self.new) }
        ensures err { IfErr result (TokensHaltAt (expect word_and_id ending) self.old self.new) }
    {
        let suffix = self.take(Wanted::Word)?;
        let of = self.take(Wanted::Id)?;
        Ok(Decl::Suffix(SuffixDecl { suffix, of }))
    }

    // `ID`
    fn param(&mut self) -> Result<Decl, Stop>
        ensures ok { IfOk result (λ decl. HeadBehind (codes "param") decl self.old self.new) }
        ensures err { IfErr result (TokensHaltAt (expect an_id ending) self.old self.new) }
    {
        let id = self.take(Wanted::Id)?;
        Ok(Decl::Param(id))
    }
}
