// A place in a graph file, from which tokens are taken one by one.
ghost use Rattle.std.specs.Prelude.{◌≡◌, ◌↔◌, [], List, length, true, false, IsTrue, IfOk, IfErr, IfSome, IfNone};
ghost use Rattle.meaning_graph.specs.Lexing.{past_gap};
ghost use Rattle.meaning_graph.specs.Going.{accepts};
ghost use Rattle.dg_reader.specs.Seen.{token_view};
ghost use Rattle.dg_reader.specs.Walks.{TakesToken, SkipsToken, MayFind, Finds, class_of, TokensHaltBefore, IsTokenOf};

use crate::lexer::{Token, past_gap, token_at};
use object_values::{Bytes, Memory};
use odin_bytes::{is_id, is_name, is_string_text};
use std::alloc::Global;
use std::marker::Model;

/// Why a reading stopped. The cursor stands at the place of the unexpected token then.
#[derive(Clone, Copy)]
pub(crate) enum Stop {
    Unexpected,
    Memory,
}

impl From<Memory> for Stop {
    ghost use Rattle.dg_reader.specs.declared.cursor.Stop.{Stop};
    ghost use Rattle.std.specs.Prelude.{◌≡◌};

    ghost from_gives = { λ _ stop. stop ≡ Stop.Memory };

    fn from(_: Memory) -> Self {
        Stop::Memory
    }
}

/// What a token with bytes has to be.
#[derive(Clone, Copy)]
pub(crate) enum Wanted {
    Id,
    Word,
    String,
    NameString,
}

// A clause sees the text from the next token on.
#[derive(Drop)]
pub(crate) struct Cursor<'t> {
    alloc: Global,
    rest: &'t [u8],
}

impl<'t> Model for Cursor<'t> {
    ghost use Rattle.std.specs.Prelude.{ℕ, List};

    ghost Value = { List ℕ };

    ghost view = { λ cursor. cursor.rest.now };
}

impl Wanted {
    // The bytes of a token of this class.
    fn bytes_in<'t>(self, token: Token<'t>) -> Option<&'t [u8]>
        ensures some { IfSome result (λ bytes. IsTokenOf self bytes.now (token_view token.entry)) }
        ensures none { IfNone result (accepts (class_of self) (token_view token.entry) ≡ false) }
    {
        match self {
            Wanted::Id => token.word().filter(|bytes| is_id(bytes)),
            Wanted::Word => token.word().filter(|bytes| is_name(bytes)),
            Wanted::String => token.string().filter(|bytes| is_string_text(bytes)),
            Wanted::NameString => token.string().filter(|bytes| is_name(bytes)),
        }
    }
}

impl<'t> Cursor<'t> {
    pub(crate) fn new(alloc: Global, text: &'t [u8]) -> Self
        ensures { result ≡ past_gap false text.now }
    {
        Cursor {
            alloc,
            rest: past_gap(text),
        }
    }

    /// The allocator, which no contract speaks of: whatever it is, the same is read.
    pub(crate) fn alloc(&self) -> Global {
        self.alloc
    }

    pub(crate) fn is_at_end(&self) -> bool
        ensures { IsTrue result ↔ (self.now ≡ []) }
    {
        self.rest.is_empty()
    }

    /// How many bytes are left, from the next token on.
    pub(crate) fn left(&self) -> usize
        ensures { result ≡ length self.now }
    {
        self.rest.len()
    }

    /// Takes this token, where it comes next.
    pub(crate) fn skip(&mut self, token: Token<'_>) -> bool
        ensures { SkipsToken result (token_view token.entry) self.old self.new }
    {
        let Some((next, behind)) = token_at(self.rest) else {
            return false;
        };
        if !next.is(token) {
            return false;
        }
        self.rest = past_gap(behind);
        true
    }

    /// Takes this token, which has to come next.
    pub(crate) fn require(&mut self, token: Token<'_>) -> Result<(), Stop>
        ensures ok { IfOk result (λ _. TakesToken self.old (token_view token.entry) self.new) }
        ensures err { IfErr result
            (λ _. SkipsToken false (token_view token.entry) self.old self.new) }
    {
        if self.skip(token) {
            Ok(())
        } else {
            Err(Stop::Unexpected)
        }
    }

    /// The bytes of the next token, which is taken, where it is of this class.
    pub(crate) fn take_if(&mut self, wanted: Wanted) -> Result<Option<Bytes>, Memory>
        ensures { IfOk result (λ found. MayFind wanted found self.old self.new) }
    {
        let Some((next, behind)) = token_at(self.rest) else {
            return Ok(None);
        };
        let Some(bytes) = wanted.bytes_in(next) else {
            return Ok(None);
        };
        let found = Bytes::from_slice(self.alloc, bytes)?;
        self.rest = past_gap(behind);
        Ok(Some(found))
    }

    /// The bytes of the next token, which has to be of this class, and is taken.
    pub(crate) fn take(&mut self, wanted: Wanted) -> Result<Bytes, Stop>
        ensures ok { IfOk result (λ bytes. Finds wanted bytes self.old self.new) }
        ensures err { IfErr result (TokensHaltBefore (class_of wanted) self.old self.new) }
    {
        match self.take_if(wanted)? {
            Some(bytes) => Ok(bytes),
            None => Err(Stop::Unexpected),
        }
    }
}
