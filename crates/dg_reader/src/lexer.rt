// Tokens, each read from the front of a text.
ghost use Rattle.std.specs.Prelude.{◌≡◌, ◌↔◌, ◌≤◌, length, take, drop, not, position, false, true, IsTrue, option_map};
ghost use Rattle.meaning_texts.specs.Classes.{is_name_byte};
ghost use Rattle.meaning_graph.specs.Lexing.{token_at, past_gap, name_front, past_names, taken};
ghost use Rattle.dg_reader.specs.Seen.{token_view, word_in, string_in, word_at_front, string_of};

use memchr::memchr;
use odin_bytes::{is_name, is_name_byte, is_string_text};

/// A token of a graph file, which borrows its bytes from the text.
#[derive(Clone, Copy)]
pub enum Token<'t> {
    Word(&'t [u8]),
    /// What stands between the quotes of a string.
    String(&'t [u8]),
    Semicolon,
    Comma,
    Opening,
    Closing,
}

impl<'t> Token<'t> {
    /// The bytes of a word.
    pub fn word(self) -> Option<&'t [u8]>
        ensures { option_map (λ bytes. bytes.now) result ≡ word_in (token_view self.entry) }
    {
        match self {
            Token::Word(bytes) => Some(bytes),
            Token::String(_) | Token::Semicolon | Token::Comma | Token::Opening | Token::Closing =>
                None,
        }
    }

    /// The bytes of a string, without its quotes.
    pub fn string(self) -> Option<&'t [u8]>
        ensures { option_map (λ bytes. bytes.now) result ≡ string_in (token_view self.entry) }
    {
        match self {
            Token::String(bytes) => Some(bytes),
            Token::Word(_) | Token::Semicolon | Token::Comma | Token::Opening | Token::Closing =>
                None,
        }
    }

    /// Whether both are the same token.
    pub fn is(self, other: Token<'_>) -> bool
        ensures { IsTrue result ↔ (token_view self.entry ≡ token_view other.entry) }
    {
        match (self, other) {
            (Token::Word(bytes), Token::Word(others)) => bytes == others,
            (Token::String(bytes), Token::String(others)) => bytes == others,
            (Token::Semicolon, Token::Semicolon) => true,
            (Token::Comma, Token::Comma) => true,
            (Token::Opening, Token::Opening) => true,
            (Token::Closing, Token::Closing) => true,
            _ => false,
        }
    }
}

/// The token with which the text begins, and what stands after it. `None` is also given at the end of a text.
pub fn token_at(text: &[u8]) -> Option<(Token<'_>, &[u8])>
    ensures { option_map (λ read. taken (token_view read.0) read.1.now) result ≡ token_at text.now }
{
    let (first, rest) = text.split_first()?;
    match *first {
        b'"' => string_at(rest),
        b';' => Some((Token::Semicolon, rest)),
        b',' => Some((Token::Comma, rest)),
        b'(' => Some((Token::Opening, rest)),
        b')' => Some((Token::Closing, rest)),
        _ => word_at(text),
    }
}

/// What stands after the blanks and the comments with which the text begins.
pub fn past_gap(text: &[u8]) -> &[u8]
    ensures { result.now ≡ past_gap false text.now }
{
    let mut rest = text;
    'gap: while let Some((first, behind)) = rest.split_first() {
        rest = match *first {
            b' ' | b'\t' | b'\r' | b'\n' => behind,
            b'#' => past_comment(behind),
            _ => return rest,
        };
    }
    rest
}

// The string whose first quote stands before the text.
fn string_at(text: &[u8]) -> Option<(Token<'_>, &[u8])>
    ensures { option_map (λ read. taken (token_view read.0) read.1.now) result
        ≡ string_of text.now }
{
    let end = memchr(b'"', text)?;
    let inner = &text[..end];
    if !is_string_text(inner) {
        return None;
    }
    Some((Token::String(inner), &text[end + 1..]))
}

// The longest word.
fn word_at(text: &[u8]) -> Option<(Token<'_>, &[u8])>
    ensures { option_map (λ read. taken (token_view read.0) read.1.now) result ≡
        word_at_front text.now }
{
    let (word, rest) = text.split_at(name_length(text));
    if !is_name(word) {
        return None;
    }
    Some((Token::Word(word), rest))
}

// How many name bytes stand at the front.
fn name_length(text: &[u8]) -> usize
    ensures within { result ≤ length text.now }
    ensures front { take result text.now ≡ name_front text.now }
    ensures behind { drop result text.now ≡ past_names text.now }
{
    match first_other(text) {
        Some(end) => end,
        None => text.len(),
    }
}

// The place of the first byte that no name has.
fn first_other(text: &[u8]) -> Option<usize>
    ensures { result ≡ position (λ b. not (is_name_byte b)) text.now }
{
    text.iter().position(|byte| !is_name_byte(*byte))
}

// From the LF that ends the comment on, or nothing.
fn past_comment(text: &[u8]) -> &[u8]
    ensures same { past_gap false result.now ≡ past_gap true text.now }
    ensures shorter { length result.now ≤ length text.now }
{
    match memchr(b'\n', text) {
        Some(end) => &text[end..],
        None => &[],
    }
}
