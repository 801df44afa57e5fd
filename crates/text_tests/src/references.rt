// Lists of references.
use object_values::{Bytes, Memory};
use request_parser::{Line, Lines, read_lines, write_expression};
use std::alloc::Global;

// A list, and of each line that isn't passed over its number and how its expression is written; nothing for a bad one.
type Row = (&'static [u8], &'static [(u64, &'static [u8])]);

const ROWS: &[Row] = &[
    (b"", &[]),
    (b"# none\n\n\r\n", &[]),
    (b"a.c\nb.c", &[(1, b"a.c"), (2, b"b.c")]),
    (
        b"# c\n\n a.c \r\n?\n#\n\nb.c :o",
        &[(3, b"a.c"), (4, b""), (7, b"b.c:o")],
    ),
    (b" #\na\r\r\n", &[(1, b""), (2, b"")]),
];

// Whether the line has this number and this text.
fn is_line(alloc: Global, line: &Line, expected: (u64, &[u8])) -> Result<bool, Memory> {
    match line {
        Line::Good(number, expression) => {
            let written = write_expression(alloc, expression)?;
            Ok((*number, written.as_slice()) == expected)
        }
        Line::Bad(number) => Ok((*number, b"".as_slice()) == expected),
    }
}

fn are_lines(alloc: Global, lines: &[Line], expected: &[(u64, &[u8])]) -> Result<bool, Memory> {
    for (line, row) in lines.iter().zip(expected) {
        if !is_line(alloc, line, *row)? {
            return Ok(false);
        }
    }
    Ok(lines.len() == expected.len())
}

// Whether the list says these lines.
fn says(alloc: Global, text: &[u8], expected: &[(u64, &[u8])]) -> Result<bool, Memory> {
    match read_lines(alloc, text)? {
        Lines::These(lines) => are_lines(alloc, lines.as_slice(), expected),
        Lines::TooMany => Ok(false),
    }
}

// So many lines `a`, after one that is passed over.
fn many(alloc: Global, count: usize) -> Result<Bytes, Memory> {
    let mut text = Bytes::from_slice(alloc, b"#\n")?;
    for _ in 0..count {
        text.extend_from_slice(b"a\n")?;
    }
    Ok(text)
}

// How many lines a list of so many has; none where there are too many.
fn count_of_many(alloc: Global, count: usize) -> Result<Option<usize>, Memory> {
    let text = many(alloc, count)?;
    match read_lines(alloc, text.as_slice())? {
        Lines::These(lines) => Ok(Some(lines.len())),
        Lines::TooMany => Ok(None),
    }
}

#[test]
fn lines_are_numbered_and_read(rt: HostRuntime) {
    for (text, expected) in ROWS {
        assert!(rt; says(rt.alloc(), text, expected) == Ok(true));
    }
}

#[test]
fn a_list_has_10000_lines(rt: HostRuntime) {
    assert!(rt; count_of_many(rt.alloc(), 10_000) == Ok(Some(10_000)));
    assert!(rt; count_of_many(rt.alloc(), 10_001) == Ok(None));
}
