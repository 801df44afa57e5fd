// Tokens, gaps, places and classes, as tables.
use dg_reader::{Token, column_behind, line_behind, past_gap, token_at};
use object_values::Memory;
use odin_bytes::{is_id, is_name, is_string_text};
use std::alloc::Global;
use std::test::Fail;

#[test]
fn tokens_are_read_one_by_one(rt: HostRuntime) {
    let tokens = [
        Token::Word(b"lib/B-2_x.c"),
        Token::Opening,
        Token::String(b"a;#b"),
        Token::String(b""),
        Token::Comma,
        Token::Closing,
        Token::Word(b"9"),
        Token::Semicolon,
    ];
    let mut rest = past_gap(b" lib/B-2_x.c(\"a;#b\"\"\" ,)# 8\n9;#");
    for wanted in tokens {
        let (token, behind) = token_at(rest).expect(&rt, "a token");
        assert!(rt; token.is(wanted));
        rest = past_gap(behind);
    }
    assert!(rt; rest.is_empty());
}

#[test]
fn no_token_begins_here(rt: HostRuntime) {
    let texts = [
        b"".as_slice(),
        b" a",
        b"#",
        b"?",
        b"\xc3\xa4",
        b"\"a",
        b"\"a\nb\"",
        b"\"\x7f\"",
    ];
    for text in texts {
        assert!(rt; token_at(text).is_none());
    }
}

#[test]
fn tokens_hold_their_bytes(rt: HostRuntime) {
    let word = Token::Word(b"a");
    let string = Token::String(b"a");
    assert_eq!(rt; word.word(), Some(b"a".as_slice()));
    assert_eq!(rt; word.string(), None);
    assert_eq!(rt; string.string(), Some(b"a".as_slice()));
    assert_eq!(rt; string.word(), None);
    assert!(rt; !word.is(string));
}

#[test]
fn lines_and_columns_begin_at_1(rt: HostRuntime) {
    let places = [
        (b"".as_slice(), 1, 1),
        (b"ab", 1, 3),
        (b"a\r", 1, 3),
        (b"a\n", 2, 1),
        (b"\n\nabc", 3, 4),
    ];
    for (front, line, column) in places {
        assert_eq!(rt; line_behind(front), line);
        assert_eq!(rt; column_behind(front), column);
    }
}

#[test]
fn classes_tell_texts_apart(rt: HostRuntime) {
    let cases = [
        (b"".as_slice(), false, false, true),
        (b"a_1", true, true, true),
        (b"1a", false, true, true),
        (b"_a", false, true, true),
        (b"a.c", false, true, true),
        (b"a b", false, false, true),
        (b"a\"", false, false, false),
        (b"a\t", false, false, false),
    ];
    for (text, id, name, string) in cases {
        assert_eq!(rt; is_id(text), id);
        assert_eq!(rt; is_name(text), name);
        assert_eq!(rt; is_string_text(text), string);
    }
}

// Whether so many letters are of each class, or of none.
fn are_classed(alloc: Global, count: usize, wanted: bool) -> Result<bool, Memory> {
    let text = vec![in alloc; b'a'; count]?;
    let text = text.as_slice();
    Ok(is_id(text) == wanted && is_name(text) == wanted && is_string_text(text) == wanted)
}

#[test]
fn classes_have_255_bytes(rt: HostRuntime) -> Result<(), Fail> {
    assert!(rt; are_classed(rt.alloc(), 255, true)?);
    assert!(rt; are_classed(rt.alloc(), 256, false)?);
    Ok(())
}
