// The kinds of types.
ghost use Rattle.std.specs.Prelude.{[], List, IfOk, IfErr};
ghost use Rattle.meaning_graph.specs.Going.{parts, supers, expect};
ghost use Rattle.meaning_graph.specs.Going.{kind as kind_stage};
ghost use Rattle.dg_reader.specs.Walks.{TokensHaltAt};
ghost use Rattle.dg_reader.specs.Reads.{ReadsKind, KindBehind, simple_word, list_word, compound_word, of_an_id, opened_part};

use crate::cursor::{Cursor, Stop, Wanted};
use crate::lexer::Token;
use object_values::{Bytes, Kind, Seq};

impl<'t> Cursor<'t> {
    /// The kind of a type, and its supertypes.
    pub(crate) fn kind(&mut self) -> Result<(Kind, Seq<Bytes>), Stop>
        ensures ok { IfOk result (λ read. ReadsKind read.0 read.1 self.old self.new) }
        ensures err { IfErr result (TokensHaltAt (expect [] kind_stage) self.old self.new) }
    {
        if self.skip(Token::Word(b"simple")) {
            return self.simple();
        }
        if self.skip(Token::Word(b"list")) {
            return self.list();
        }
        if self.skip(Token::Word(b"compound")) {
            return self.compound();
        }
        Err(Stop::Unexpected)
    }

    // `[ "is" ID { "," ID } ]`
    fn simple(&mut self) -> Result<(Kind, Seq<Bytes>), Stop>
        ensures ok { IfOk result (λ got. KindBehind simple_word got.0 got.1 self.old self.new) }
        ensures err { IfErr result (TokensHaltAt (expect [] supers) self.old self.new) }
    {
        let supers = self.supers()?;
        Ok((Kind::Simple, supers))
    }

    // `"of" ID [ "is" ID { "," ID } ]`
    fn list(&mut self) -> Result<(Kind, Seq<Bytes>), Stop>
        ensures ok { IfOk result (λ got. KindBehind list_word got.0 got.1 self.old self.new) }
        ensures err { IfErr result (TokensHaltAt (expect of_an_id supers) self.old self.new) }
    {
        self.require(Token::Word(b"of"))?;
        let of = self.take(Wanted::Id)?;
        let supers = self.supers()?;
        Ok((Kind::List(of), supers))
    }

    // `"(" ID ID { "," ID ID } ")"`
    fn compound(&mut self) -> Result<(Kind, Seq<Bytes>), Stop>
        ensures ok { IfOk result (λ got. KindBehind compound_word got.0 got.1 self.old self.new) }
        ensures err { IfErr result (TokensHaltAt (expect opened_part parts) self.old self.new) }
    {
        self.require(Token::Opening)?;
        let parts = self.parts()?;
        self.require(Token::Closing)?;
        Ok((Kind::Compound(parts), Seq::new(self.alloc())))
    }
}
