// Texts as a person is shown them, by rows that were made with another decoder, and the lines of messages.
use build_files::messages::lines_of;
use object_values::{Bytes, Memory, Message, Seq, Status, Text};
use shown_texts::shown::write_shown;
use std::alloc::{AllocError, Global};
use std::test::Fail;

fn shown(alloc: Global, text: &[u8]) -> Result<Bytes, Memory> {
    let mut out = Bytes::new(alloc);
    write_shown(text, &mut out)?;
    Ok(out)
}

// Each byte spelled by its number.
fn numbers(alloc: Global, text: &[u8]) -> Result<String, AllocError> {
    let mut out = String::new(alloc);
    for byte in text {
        out.push_str(format!(in alloc; "\\x{byte:02x}")?.as_str())?;
    }
    Ok(out)
}

// A byte alone, which is a character only where it is one of ASCII.
fn byte_alone(alloc: Global, byte: u8) -> Result<String, AllocError> {
    match byte {
        b'\\' => String::from_str(alloc, "\\\\"),
        b'\t' => String::from_str(alloc, "\\t"),
        b' '..=b'~' => {
            let mut out = String::new(alloc);
            out.push(char::from(byte))?;
            Ok(out)
        }
        _ => numbers(alloc, &[byte]),
    }
}

#[test]
fn each_byte_alone(rt: HostRuntime) -> Result<(), Fail> {
    for byte in 0..=u8::MAX {
        let wanted = byte_alone(rt.alloc(), byte)?;
        assert!(rt; shown(rt.alloc(), &[byte])?.as_slice() == wanted.as_bytes());
    }
    Ok(())
}

// Two bytes that are no character together are shown one by one.
fn two_bytes(alloc: Global, a: u8, b: u8) -> Result<String, AllocError> {
    if let (0xC2..=0xDF, 0x80..=0xBF) = (a, b) {
        if matches!((a, b), (0xC2, 0x80..=0x9F) | (0xD8, 0x9C)) {
            return numbers(alloc, &[a, b]);
        }
        return String::from_utf8_lossy(alloc, &[a, b]);
    }
    let mut out = byte_alone(alloc, a)?;
    out.push_str(byte_alone(alloc, b)?.as_str())?;
    Ok(out)
}

#[test]
fn each_two_bytes(rt: HostRuntime) -> Result<(), Fail> {
    for a in 0..=u8::MAX {
        for b in 0..=u8::MAX {
            let wanted = two_bytes(rt.alloc(), a, b)?;
            assert!(rt; shown(rt.alloc(), &[a, b])?.as_slice() == wanted.as_bytes());
        }
    }
    Ok(())
}

// Characters that stay: the first and the last of each size, and those beside the ones that move.
const LETTERS: &[&[u8]] = &[
    b"\xc2\xa0", // U+00A0
    b"\xc3\xbc", // U+00FC
    b"\xd8\x9b", // U+061B
    b"\xd8\x9d", // U+061D
    b"\xdf\xbf", // U+07FF
    b"\xe0\xa0\x80", // U+0800
    b"\xe2\x80\x8d", // U+200D
    b"\xe2\x80\x90", // U+2010
    b"\xe2\x80\xa7", // U+2027
    b"\xe2\x80\xaf", // U+202F
    b"\xe2\x81\xa5", // U+2065
    b"\xe2\x81\xaa", // U+206A
    b"\xed\x9f\xbf", // U+D7FF
    b"\xee\x80\x80", // U+E000
    b"\xef\xbf\xbd", // U+FFFD
    b"\xef\xbf\xbf", // U+FFFF
    b"\xf0\x90\x80\x80", // U+10000
    b"\xf0\x9f\x98\x80", // U+1F600
    b"\xf4\x8f\xbf\xbf", // U+10FFFF
];

// Characters that move what is shown, and bytes that are no character.
const OTHERS: &[&[u8]] = &[
    b"\xc2\x80", // U+0080
    b"\xc2\x9f", // U+009F
    b"\xd8\x9c", // U+061C
    b"\xe2\x80\x8e", // U+200E
    b"\xe2\x80\x8f", // U+200F
    b"\xe2\x80\xa8", // U+2028
    b"\xe2\x80\xae", // U+202E
    b"\xe2\x81\xa6", // U+2066
    b"\xe2\x81\xa9", // U+2069
    b"\xc0\x80",
    b"\xc1\xbf",
    b"\xe0\x80\x80",
    b"\xe0\x9f\xbf",
    b"\xf0\x80\x80\x80",
    b"\xf0\x8f\xbf\xbf",
    b"\xed\xa0\x80",
    b"\xed\xaf\xbf",
    b"\xed\xb0\x80",
    b"\xed\xbf\xbf",
    b"\xf4\x90\x80\x80",
    b"\xf7\xbf\xbf\xbf",
    b"\xf8\x88\x80\x80\x80",
    b"\xfe",
    b"\xff",
    b"\x80",
    b"\xbf",
    b"\xc3",
    b"\xe2\x82",
    b"\xf0\x9f\x98",
    b"\xc3\xc3",
    b"\xe2\x82\xc3",
];

#[test]
fn characters_stay(rt: HostRuntime) -> Result<(), Fail> {
    for text in LETTERS {
        assert!(rt; shown(rt.alloc(), text)?.as_slice() == *text);
    }
    Ok(())
}

#[test]
fn others_are_numbers(rt: HostRuntime) -> Result<(), Fail> {
    for text in OTHERS {
        let wanted = numbers(rt.alloc(), text)?;
        assert!(rt; shown(rt.alloc(), text)?.as_slice() == wanted.as_bytes());
    }
    Ok(())
}

fn message(alloc: Global, label: &[u8], text: &[u8]) -> Result<Message, Memory> {
    let label = Text::of(Bytes::from_slice(alloc, label)?)?;
    let text = Text::of(Bytes::from_slice(alloc, text)?)?;
    Ok(Message {
        label,
        level: Status::Error,
        text,
    })
}

// The lines of messages with these labels and texts.
fn lines(alloc: Global, rows: &[(&[u8], &[u8])], labelled: bool) -> Result<Bytes, Memory> {
    let mut messages = Seq::new(alloc);
    for (label, text) in rows {
        messages.push(message(alloc, label, text)?)?;
    }
    lines_of(alloc, messages.as_slice(), labelled)
}

// One place that is named in two ways, one text of two labels, and texts that begin with no place.
const ROWS: &[(&[u8], &[u8])] = &[
    (b"a.c:o", b"./a.c:1:2: x"),
    (b"a.c:o", b"a.c:1:2: x"),
    (b"b.c:o", b"./a.c:1:2: x"),
    (b"b.c:o", b"./b.c: In function 'f':"),
    (b"b.c:o", b"./no place: x"),
    (b"b.c:o", b".//b.c:1: x"),
    (b"b.c:o", b"./: x"),
    (b"b.c:o", b"././b.c:1: x"),
];

#[test]
fn a_place_is_written_as_an_editor_reads_it(rt: HostRuntime) -> Result<(), Fail> {
    let wanted =
        b"a.c:1:2: x\nb.c: In function 'f':\n./no place: x\n.//b.c:1: x\n./: x\n./b.c:1: x\n";
    assert!(rt; lines(rt.alloc(), ROWS, false)?.as_slice() == wanted.as_slice());
    Ok(())
}

// With labels.
const LABELLED: &[u8] =
    b"error a.c:o ./a.c:1:2: x\nerror a.c:o a.c:1:2: x\nerror b.c:o ./a.c:1:2: x\n";

#[test]
fn a_label_stands_before_a_whole_text(rt: HostRuntime) -> Result<(), Fail> {
    let found = lines(rt.alloc(), ROWS, true)?;
    assert!(rt; found.as_slice().starts_with(LABELLED));
    Ok(())
}
