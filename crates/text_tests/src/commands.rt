// Commands by their lines.
use object_values::{Bytes, COMMAND_LIMIT, Memory};
use odin_bytes::write_number;
use odin_commands::{Command, read_command};
use std::alloc::Global;
use std::test::Fail;

// A line, and the command that it is, told in words.
const ROWS: &[(&[u8], &[u8])] = &[
    (b"put a.c 3", b"put a.c 3"),
    (b"put x 18446744073709551615", b"put x 18446744073709551615"),
    (b"put x 16777217", b"put x 16777217"),
    (b"put a.c 03", b"bad"),
    (b"put a.c", b"bad"),
    (b"put a.c ", b"bad"),
    (b"put  a.c 3", b"bad"),
    (b"put a.c 3 4", b"bad"),
    (b"put x 18446744073709551616", b"bad"),
    (b"put x 99999999999999999999", b"bad"),
    (b"put a?c 2", b"bad name 2"),
    (b"put a?c 02", b"bad"),
    (b"put a?c 1000000000", b"bad name 1000000000"),
    (b"take t.c", b"take t.c"),
    (b"take a b", b"bad"),
    (b"take ", b"bad"),
    (b"take a?c", b"bad name 0"),
    (b"drop a/b.c", b"drop a/b.c"),
    (b"drop a:o", b"bad name 0"),
    (b"ask a.c +debug:o", b"ask a.c +debug:o"),
    (b"ask ", b"ask "),
    (b"ask", b"bad"),
    (b"plan m.sm:exe", b"plan m.sm:exe"),
    (b"sources", b"sources"),
    (b"sources ", b"bad"),
    (b"kept", b"kept"),
    (b"quit", b"quit"),
    (b"quit x", b"bad"),
    (b"Quit", b"bad"),
    (b"frob", b"bad"),
    (b"", b"nothing"),
    (b" ", b"bad"),
];

// A word, and what it is about.
fn told(alloc: Global, word: &[u8], about: &[u8]) -> Result<Bytes, Memory> {
    let mut text = Bytes::from_slice(alloc, word)?;
    text.extend_from_slice(about)?;
    Ok(text)
}

fn told_count(alloc: Global, word: &[u8], about: &[u8], count: u64) -> Result<Bytes, Memory> {
    let mut text = told(alloc, word, about)?;
    write_number(count, &mut text)?;
    Ok(text)
}

// The command in words.
fn in_words(alloc: Global, command: &Command) -> Result<Bytes, Memory> {
    match command {
        Command::Put(name, count) => {
            let words = told(alloc, b"put ", name.as_slice())?;
            told_count(alloc, words.as_slice(), b" ", *count)
        }
        Command::Take(name) => told(alloc, b"take ", name.as_slice()),
        Command::Remove(name) => told(alloc, b"drop ", name.as_slice()),
        Command::Ask(text) => told(alloc, b"ask ", text.as_slice()),
        Command::Plan(text) => told(alloc, b"plan ", text.as_slice()),
        Command::Sources => told(alloc, b"sources", b""),
        Command::Kept => told(alloc, b"kept", b""),
        Command::Quit => told(alloc, b"quit", b""),
        Command::Nothing => told(alloc, b"nothing", b""),
        Command::Bad => told(alloc, b"bad", b""),
        Command::BadName(count) => told_count(alloc, b"bad name", b" ", *count),
    }
}

// Whether the line is the command that the words tell.
fn is_read(alloc: Global, line: &[u8], words: &[u8]) -> Result<bool, Memory> {
    let command = read_command(alloc, line)?;
    Ok(in_words(alloc, &command)?.as_slice() == words)
}

// A front, and a letter after it, so often.
fn long(alloc: Global, front: &[u8], count: usize) -> Result<Bytes, Memory> {
    let mut text = Bytes::from_slice(alloc, front)?;
    for _ in 0..count {
        text.push(b'a')?;
    }
    Ok(text)
}

// Whether the front with so many letters is a line of this command.
fn is_long(alloc: Global, front: &[u8], count: usize, words: &[u8]) -> Result<bool, Memory> {
    let line = long(alloc, front, count)?;
    is_read(alloc, line.as_slice(), words)
}

#[test]
fn lines_are_commands(rt: HostRuntime) -> Result<(), Fail> {
    for (line, words) in ROWS {
        assert!(rt; is_read(rt.alloc(), line, words)?);
    }
    Ok(())
}

#[test]
fn long_lines_are_bad(rt: HostRuntime) -> Result<(), Fail> {
    let longest = long(rt.alloc(), b"ask ", COMMAND_LIMIT - 4)?;
    assert!(rt; is_read(rt.alloc(), longest.as_slice(), longest.as_slice())?);
    assert!(rt; is_long(rt.alloc(), b"ask ", COMMAND_LIMIT - 3, b"bad")?);
    assert!(rt; is_long(rt.alloc(), b"take ", 256, b"bad name 0")?);
    assert!(rt; is_long(rt.alloc(), b"take ", COMMAND_LIMIT - 4, b"bad")?);
    Ok(())
}
