// Tokens, written one after the other.
ghost use Rattle.std.specs.Prelude.{◌≡◌, ◌++◌, ◌∷◌, [], OnOk};
ghost use Rattle.meaning_graph.specs.Tokens.{word, string};
ghost use Rattle.meaning_graph.specs.Grammar.{id_tokens, optional_tokens, part_tokens, string_tokens, extra_tokens};
ghost use Rattle.meaning_graph.specs.Spelling.{token_spelling, follows_close};
ghost use Rattle.dg_reader.specs.Seen.{token_view};
ghost use Rattle.dg_reader.specs.Written.{Writes};

use crate::lexer::Token;
use object_values::{Bytes, Extra, Memory, PartDecl};

/// What was written so far. It is left as it stands at want of memory.
#[derive(Drop)]
pub(crate) struct Writer {
    pub(crate) out: Bytes,
    /// Whether no space stands before the next token.
    pub(crate) glued: bool,
}

impl Writer {
    pub(crate) fn token(&mut self, token: Token<'_>) -> Result<(), Memory>
        ensures { OnOk result (Writes (token_view token.entry ∷ []) self.old self.new) }
    {
        if !self.glued && !follows(token) {
            self.out.push(b' ')?;
        }
        put_token(token, &mut self.out)?;
        self.glued = matches!(token, Token::Opening);
        Ok(())
    }

    pub(crate) fn word(&mut self, bytes: &[u8]) -> Result<(), Memory>
        ensures { OnOk result (Writes (word bytes.now ∷ []) self.old self.new) }
    {
        self.token(Token::Word(bytes))
    }

    /// `ID { "," ID }`, or nothing
    pub(crate) fn ids(&mut self, ids: &[Bytes]) -> Result<(), Memory>
        ensures { OnOk result (Writes (id_tokens ids.now) self.old self.new) }
    {
        let Some((first, rest)) = ids.split_first() else {
            return Ok(());
        };
        self.word(first.as_slice())?;
        'ids: for id in rest {
            self.token(Token::Comma)?;
            self.word(id.as_slice())?;
        }
        Ok(())
    }

    /// A keyword and identifiers, where there are any.
    pub(crate) fn optional(&mut self, keyword: &[u8], ids: &[Bytes]) -> Result<(), Memory>
        ensures { OnOk result (Writes (optional_tokens keyword.now ids.now) self.old self.new) }
    {
        if ids.is_empty() {
            return Ok(());
        }
        self.word(keyword)?;
        self.ids(ids)
    }

    /// `ID ID { "," ID ID }`, or nothing
    pub(crate) fn parts(&mut self, parts: &[PartDecl]) -> Result<(), Memory>
        ensures { OnOk result (Writes (part_tokens parts.now) self.old self.new) }
    {
        let Some((first, rest)) = parts.split_first() else {
            return Ok(());
        };
        self.part(first)?;
        'parts: for part in rest {
            self.token(Token::Comma)?;
            self.part(part)?;
        }
        Ok(())
    }

    fn part(&mut self, part: &PartDecl) -> Result<(), Memory>
        ensures { OnOk result (Writes (part_tokens (part.now ∷ [])) self.old self.new) }
    {
        self.word(part.name.as_slice())?;
        self.word(part.of.as_slice())
    }

    pub(crate) fn strings(&mut self, strings: &[Bytes]) -> Result<(), Memory>
        ensures { OnOk result (Writes (string_tokens strings.now) self.old self.new) }
    {
        'strings: for string in strings {
            self.token(Token::String(string.as_slice()))?;
        }
        Ok(())
    }

    pub(crate) fn extras(&mut self, extras: &[Extra]) -> Result<(), Memory>
        ensures { OnOk result (Writes (extra_tokens extras.now) self.old self.new) }
    {
        'extras: for extra in extras {
            self.extra(extra)?;
        }
        Ok(())
    }

    fn extra(&mut self, extra: &Extra) -> Result<(), Memory>
        ensures { OnOk result (Writes (extra_tokens (extra.now ∷ [])) self.old self.new) }
    {
        match extra {
            Extra::Also(id) => {
                self.word(b"also")?;
                self.word(id.as_slice())
            }
            Extra::With(name) => {
                self.word(b"with")?;
                self.token(Token::String(name.as_slice()))
            }
        }
    }
}

// `;`, `,` and `)` follow without a space.
fn follows(token: Token<'_>) -> bool
    ensures { result ≡ follows_close (token_view token.entry) }
{
    match token {
        Token::Semicolon | Token::Comma | Token::Closing => true,
        Token::Word(_) | Token::String(_) | Token::Opening => false,
    }
}

fn put_token(token: Token<'_>, out: &mut Bytes) -> Result<(), Memory>
    ensures { OnOk result (out.new ≡ out.old ++ token_spelling (token_view token.entry)) }
{
    match token {
        Token::Word(bytes) => out.extend_from_slice(bytes),
        Token::String(bytes) => {
            out.push(b'"')?;
            out.extend_from_slice(bytes)?;
            out.push(b'"')
        }
        Token::Semicolon => out.push(b';'),
        Token::Comma => out.push(b','),
        Token::Opening => out.push(b'('),
        Token::Closing => out.push(b')'),
    }
}
