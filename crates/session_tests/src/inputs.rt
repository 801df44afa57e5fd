// The worked rows of inputs and words, over a source and a sink in memory.
ghost use Rattle.std.specs.Prelude.{◌<◌};

use super::runs::{status_with, with_taken};
use object_values::Memory;
use odin_fakes::{FailSink, FailSource};
use std::alloc::Global;
use std::test::Fail;
use test_support::{only, sink, source};

// The status and the output of a run over this input, read and written in such pieces.
fn outcome(alloc: Global, text: &[u8], piece: usize) -> Result<(u8, Vec<u8>), Memory>
    requires { 0 < piece }
{
    let mut input = source(alloc, text, piece)?;
    let mut output = sink(alloc, 10_000, piece)?;
    let status = status_with(alloc, &["odin", "g0"], &mut input, &mut output)?;
    with_taken(alloc, status, output.taken())
}

// An input, the status, and the output.
const ROWS: [(&[u8], u8, &[u8]); 24] = [
    (b"", 0, b""),
    (
        b"put a.c 0\nask a.c\n",
        0,
        b"put a.c 0\nobject ok simple 0\n\nmessages 0\n",
    ),
    (
        b"ask z",
        0,
        b"object abort none 0\nmessages 1\nabort z no source z\n",
    ),
    (b"put a.c 9\nx=1", 1, b""),
    (b"put a.c 3", 1, b""),
    (b"put a.c 0", 0, b"put a.c 0\n"),
    (
        b"put a.c 4\r\n\r\n\n\nask a.c\r",
        0,
        b"put a.c 4\nobject ok simple 4\n\r\n\n\n\nmessages 0\n",
    ),
    (
        b"put a.c 8\n\nask a.c\nask a.c\n",
        0,
        b"put a.c 8\nobject ok simple 8\n\nask a.c\nmessages 0\n",
    ),
    (b"put a.c 01\nput a.c 1", 1, b"refused command\n"),
    (b"put a.c 16777217\nput b.c 0\n", 1, b""),
    (b"put a.c 18446744073709551616\n", 0, b"refused command\n"),
    (
        b"put a.c 1\nxput a.c 1\nyask a.c\n",
        0,
        b"put a.c 1\nput a.c 1\nobject ok simple 1\ny\nmessages 0\n",
    ),
    (
        b"\n\r\nfrob\r\nask a.c\r\r\n",
        0,
        b"refused command\nrefused expression 4\n",
    ),
    (
        b"put a?c 3\nxyz\nask a?c\n",
        0,
        b"refused name\nrefused expression 2\n",
    ),
    (
        b"put a.c 0 \nput  a.c 0\nask \nPUT a.c 0\nask a?c\n",
        0,
        b"refused command\nrefused command\nrefused expression 1\nrefused command\nrefused expression 2\n",
    ),
    (
        b"put a?c 8\nput b 0\nput a?c 18446744073709551615\nx",
        1,
        b"refused name\n",
    ),
    (
        b"put a.c 4\nx=1\ndrop a.c\ndrop a.c\ndrop a?c\ndrop\n",
        0,
        b"put a.c 4\ndropped a.c\nno source a.c\nrefused name\nrefused command\n",
    ),
    (
        b"sources\nput b 3\nxyzput a/1 0\nput a 2\n12put b 1\nysources\nsources \n",
        0,
        b"sources 0\nput b 3\nput a/1 0\nput a 2\nput b 1\nsources 3\na 2\na/1 0\nb 1\nrefused command\n",
    ),
    (b"take g0\ntake z.c\ntake a?c\ntake \n", 0, TAKEN),
    (b"kept\nquit", 0, b"kept 0\nbye\n"),
    (b"quit\n", 0, b"bye\n"),
    (
        b"quit x\nquit\r\nfrob\nput a.c 9\nx=1",
        0,
        b"refused command\nbye\n",
    ),
    (b"quit\nask a.c\nquit\n", 0, b"bye\n"),
    (
        b"put a.c 4\nx=1\nask a.c:\nask a.c:zz\nask a.c%1:zz\nask a.c+opt:o\nfrob\nput a?c 2\nhiask a.c:o%1\n",
        0,
        b"put a.c 4\nrefused expression 5\nrefused type zz\nrefused path 1\nrefused param opt\nrefused command\nrefused name\nrefused path 2\n",
    ),
];

// The replies to `take` of the graph's own file, of one that is not there, and of words that are no names.
const TAKEN: &[u8] = b"took g0 75\nno file z.c\nrefused name\nrefused command\n";

#[test]
fn answers_the_worked_rows(rt: HostRuntime) -> Result<(), Fail> {
    for (input, end, want) in &ROWS {
        for piece in [1, 2, 7, 5000] {
            let (status, output) = outcome(rt.alloc(), input, piece)?;
            assert_eq!(rt; status, *end);
            assert!(rt; output.as_slice() == *want);
        }
    }
    Ok(())
}

// So many letters after a text.
fn put_padded(text: &mut Vec<u8>, front: &[u8], count: usize) -> Result<(), Memory> {
    text.extend_from_slice(front)?;
    for _ in 0..count {
        text.push(b'a')?;
    }
    Ok(())
}

// The status and the output where so many letters stand after a text, and this after them.
fn padded_outcome(
    alloc: Global,
    front: &[u8],
    count: usize,
    behind: &[u8],
    piece: usize,
) -> Result<(u8, Vec<u8>), Memory>
    requires { 0 < piece }
{
    let mut text = Vec::new(alloc);
    put_padded(&mut text, front, count)?;
    text.extend_from_slice(behind)?;
    outcome(alloc, text.as_slice(), piece)
}

// What stands before so many letters, and the start of the output.
const LENGTHS: [(&[u8], usize, &[u8]); 11] = [
    (b"ask ", 255, b"object abort none 0\nmessages 1\nabort aaa"),
    (b"ask ", 256, b"refused expression 256\n"),
    (b"ask a+b=", 996, b"refused param b\n"),
    (b"ask a+b=", 997, b"refused expression 1001\n"),
    (b"ask ", 1020, b"refused expression 256\n"),
    (b"ask ", 1021, b"refused command\n"),
    (b"ask ", 5000, b"refused command\n"),
    (b"drop ", 255, b"no source aaa"),
    (b"drop ", 256, b"refused name\n"),
    (
        b"put a.c 0\nask a.c\nask ",
        70_000,
        b"put a.c 0\nobject ok simple 0\n\nmessages 0\nrefused command\n",
    ),
    (b"put a.c 70000\n", 70_000, b"put a.c 70000\n"),
];

#[test]
fn holds_the_limits_of_lines(rt: HostRuntime) -> Result<(), Fail> {
    let ends: [&[u8]; 3] = [b"", b"\n", b"\r\n"];
    for (front, count, want) in &LENGTHS {
        for behind in ends {
            for piece in [1, 2, 7, 5000] {
                let (status, output) = padded_outcome(rt.alloc(), front, *count, behind, piece)?;
                assert_eq!(rt; status, 0);
                assert!(rt; output.as_slice().starts_with(want));
            }
        }
    }
    Ok(())
}

#[test]
fn passes_over_a_text_that_is_too_long(rt: HostRuntime) -> Result<(), Fail> {
    let longest: &[u8] = b"put x 16777216\nsources 1\nx 16777216\n";
    let longer: &[u8] = b"refused size\nsources 0\n";
    let rows: [(&[u8], usize, &[u8]); 2] = [
        (b"put x 16777216\n", 16_777_216, longest),
        (b"put x 16777217\n", 16_777_217, longer),
    ];
    for (front, count, want) in rows {
        for piece in [1, 2, 7, 5000] {
            let (status, output) = padded_outcome(rt.alloc(), front, count, b"sources\n", piece)?;
            assert_eq!(rt; status, 0);
            assert!(rt; output.as_slice() == want);
        }
    }
    Ok(())
}

// The status and the output where a read fails, in such pieces.
fn failing_read(
    alloc: Global,
    text: &[u8],
    piece: usize,
    number: u32,
) -> Result<(u8, Vec<u8>), Memory>
    requires { 0 < piece }
{
    let fails = only(alloc, number)?;
    let mut input = FailSource::new(source(alloc, text, piece)?, fails);
    let mut output = sink(alloc, 10_000, 7)?;
    let status = status_with(alloc, &["odin", "g0"], &mut input, &mut output)?;
    with_taken(alloc, status, output.taken())
}

// The status and the output where a write fails, in pieces of 7.
fn failing_write(alloc: Global, text: &[u8], number: u32) -> Result<(u8, Vec<u8>), Memory> {
    let fails = only(alloc, number)?;
    let mut output = FailSink::new(sink(alloc, 10_000, 7)?, fails);
    let mut input = source(alloc, text, 7)?;
    let status = status_with(alloc, &["odin", "g0"], &mut input, &mut output)?;
    with_taken(alloc, status, output.inner().taken())
}

const FIRST_RUN: &[u8] = b"put a.c 0\nask a.c\n";

const FIRST_REPLIES: &[u8] = b"put a.c 0\nobject ok simple 0\n\nmessages 0\n";

#[test]
fn stops_at_each_failing_read(rt: HostRuntime) -> Result<(), Fail> {
    // The number of the read that fails, the status, and how many bytes of the replies are written.
    for (number, end, count) in [(1, 6, 0), (2, 6, 0), (3, 6, 10), (4, 6, 41), (5, 0, 41)] {
        let (status, output) = failing_read(rt.alloc(), FIRST_RUN, 7, number)?;
        assert_eq!(rt; status, end);
        assert!(rt; output.as_slice() == &FIRST_REPLIES[..count]);
    }
    Ok(())
}

#[test]
fn stops_at_each_failing_write(rt: HostRuntime) -> Result<(), Fail> {
    // The same of the write that fails.
    for (number, end, count) in [
        (1, 5, 0),
        (2, 5, 7),
        (3, 5, 10),
        (4, 5, 17),
        (5, 5, 24),
        (6, 5, 31),
        (7, 5, 38),
        (8, 0, 41),
    ] {
        let (status, output) = failing_write(rt.alloc(), FIRST_RUN, number)?;
        assert_eq!(rt; status, end);
        assert!(rt; output.as_slice() == &FIRST_REPLIES[..count]);
    }
    Ok(())
}

const PUT_REPLIES: &[u8] = b"put a.c 5000\nput a.c 5000\nput a.c 5000\n";

// Three puts of 5,000 bytes.
fn put_three(text: &mut Vec<u8>) -> Result<(), Memory> {
    for _ in 0..3 {
        put_padded(text, b"put a.c 5000\n", 5000)?;
    }
    Ok(())
}

#[test]
fn stops_at_each_failing_read_of_long_puts(rt: HostRuntime) -> Result<(), Fail> {
    let mut text = Vec::new(rt.alloc());
    put_three(&mut text)?;
    // The 23rd read gives the end of the input, so each one before it has given 700 bytes of the 15,039.
    for number in 1..25u32 {
        let read = (700 * (number - 1)).min(15_039);
        let (status, output) = failing_read(rt.alloc(), text.as_slice(), 700, number)?;
        assert_eq!(rt; status, if number == 24 { 0 } else { 6 });
        assert!(rt; output.as_slice() == &PUT_REPLIES[..13 * (read / 5013) as usize]);
    }
    Ok(())
}

#[test]
fn stops_at_each_failing_write_of_long_puts(rt: HostRuntime) -> Result<(), Fail> {
    let mut text = Vec::new(rt.alloc());
    put_three(&mut text)?;
    for (number, end, count) in [
        (1, 5, 0),
        (2, 5, 7),
        (3, 5, 13),
        (4, 5, 20),
        (5, 5, 26),
        (6, 5, 33),
        (7, 0, 39),
    ] {
        let (status, output) = failing_write(rt.alloc(), text.as_slice(), number)?;
        assert_eq!(rt; status, end);
        assert!(rt; output.as_slice() == &PUT_REPLIES[..count]);
    }
    Ok(())
}
