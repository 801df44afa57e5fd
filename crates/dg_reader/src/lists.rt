// The lists in declarations.
ghost use Rattle.std.specs.Prelude.{◌∷◌, [], Some, IfOk, IfErr};
ghost use Rattle.meaning_graph.specs.Tokens.{comma};
ghost use Rattle.meaning_graph.specs.Going.{any_string, parts, supers, strings, extras, expect};
ghost use Rattle.dg_reader.specs.Walks.{IsNotAt, HasNone, TokensHaltAt};
ghost use Rattle.dg_reader.specs.Reads.{ReadsIds, ReadsParts, ReadsStrings, ReadsExtras, MayReadExtra, HasNoExtra, ReadsSupers, ReadsUses, ReadsClosure, HaltsInIds, a_part};

use crate::cursor::{Cursor, Stop, Wanted};
use crate::lexer::Token;
use object_values::{Bytes, Extra, PartDecl, Seq};

impl<'t> Cursor<'t> {
    /// `ID { "," ID }`
    pub(crate) fn ids(&mut self) -> Result<Seq<Bytes>, Stop>
        ensures ok { IfOk result (λ ids. ReadsIds ids self.old self.new) }
        ensures end { IfOk result (λ _. IsNotAt comma self.new) }
        ensures err { IfErr result (HaltsInIds self.old self.new) }
    {
        let mut ids = Seq::new(self.alloc());
        let first = self.take(Wanted::Id)?;
        ids.push(first)?;
        'ids: while self.skip(Token::Comma) {
            let id = self.take(Wanted::Id)?;
            ids.push(id)?;
        }
        Ok(ids)
    }

    /// `ID ID { "," ID ID }`
    pub(crate) fn parts(&mut self) -> Result<Seq<PartDecl>, Stop>
        ensures ok { IfOk result (λ ps. ReadsParts ps self.old self.new) }
        ensures end { IfOk result (λ _. IsNotAt comma self.new) }
        ensures err { IfErr result (TokensHaltAt (expect a_part parts) self.old self.new) }
    {
        let mut parts = Seq::new(self.alloc());
        let first = self.part()?;
        parts.push(first)?;
        'parts: while self.skip(Token::Comma) {
            let part = self.part()?;
            parts.push(part)?;
        }
        Ok(parts)
    }

    fn part(&mut self) -> Result<PartDecl, Stop>
        ensures ok { IfOk result (λ part. ReadsParts (part ∷ []) self.old self.new) }
        ensures err { IfErr result (TokensHaltAt (expect a_part parts) self.old self.new) }
    {
        let name = self.take(Wanted::Id)?;
        let of = self.take(Wanted::Id)?;
        Ok(PartDecl { name, of })
    }

    /// `STRING { STRING }`
    pub(crate) fn strings(&mut self) -> Result<Seq<Bytes>, Stop>
        ensures ok { IfOk result (λ words. ReadsStrings words self.old self.new) }
        ensures end { IfOk result (λ _. HasNone any_string self.new) }
        ensures err { IfErr result
            (TokensHaltAt (expect (any_string ∷ []) strings) self.old self.new) }
    {
        let mut strings = Seq::new(self.alloc());
        let first = self.take(Wanted::String)?;
        strings.push(first)?;
        'strings: while let Some(string) = self.take_if(Wanted::String)? {
            strings.push(string)?;
        }
        Ok(strings)
    }

    /// `{ "also" ID | "with" STRING }`
    pub(crate) fn extras(&mut self) -> Result<Seq<Extra>, Stop>
        ensures ok { IfOk result (λ es. ReadsExtras es self.old self.new) }
        ensures end { IfOk result (λ _. HasNoExtra self.new) }
        ensures err { IfErr result (TokensHaltAt (expect [] extras) self.old self.new) }
    {
        let mut extras = Seq::new(self.alloc());
        'extras: while let Some(extra) = self.extra()? {
            extras.push(extra)?;
        }
        Ok(extras)
    }

    // The next extra, where one comes next.
    fn extra(&mut self) -> Result<Option<Extra>, Stop>
        ensures ok { IfOk result (λ found. MayReadExtra found self.old self.new) }
        ensures err { IfErr result (TokensHaltAt (expect [] extras) self.old self.new) }
    {
        if self.skip(Token::Word(b"also")) {
            return Ok(Some(Extra::Also(self.take(Wanted::Id)?)));
        }
        if self.skip(Token::Word(b"with")) {
            return Ok(Some(Extra::With(self.take(Wanted::NameString)?)));
        }
        Ok(None)
    }

    /// `[ "is" ID { "," ID } ]`
    pub(crate) fn supers(&mut self) -> Result<Seq<Bytes>, Stop>
        ensures ok { IfOk result (λ ids. ReadsSupers ids self.old self.new) }
        ensures err { IfErr result (TokensHaltAt (expect [] supers) self.old self.new) }
    {
        if self.skip(Token::Word(b"is")) {
            self.ids()
        } else {
            Ok(Seq::new(self.alloc()))
        }
    }

    /// `[ "uses" ID { "," ID } ]`
    pub(crate) fn uses(&mut self) -> Result<Seq<Bytes>, Stop>
        ensures ok { IfOk result (λ ids. ReadsUses ids self.old self.new) }
        ensures err { IfErr result (TokensHaltAt (expect [] strings) self.old self.new) }
    {
        if self.skip(Token::Word(b"uses")) {
            self.ids()
        } else {
            Ok(Seq::new(self.alloc()))
        }
    }

    /// `[ "closure" ID ]`
    pub(crate) fn closure(&mut self) -> Result<Option<Bytes>, Stop>
        ensures ok { IfOk result (λ id. ReadsClosure id self.old self.new) }
        ensures err { IfErr result (TokensHaltAt (expect [] extras) self.old self.new) }
    {
        if self.skip(Token::Word(b"closure")) {
            Ok(Some(self.take(Wanted::Id)?))
        } else {
            Ok(None)
        }
    }
}
