// Files of stores, inputs, graphs and answers of tools at their limits: what a session replies.
ghost use Rattle.std.specs.Prelude.{◌≡◌, []};

use super::runs::{NONE, disk_of, run_over};
use super::sessions::Text;
use object_values::{Bytes, End, FileBody, Memory, Raw, Seq};
use odin_bytes::write_number;
use odin_fakes::{MemDisk, TableTools};
use odin_shell::run;
use std::alloc::Global;
use std::test::Fail;
use test_support::{CC_ONLY, body_of, only, owned, sink, source, tree_of};

// ---- files of stores

// A front whose first start is 64.
const FRONT: Text =
    b"ODINSTO1\0\0\0\0\0\0\0\0\0\0\0\0\0\0\0\x40\0\0\0\0\0\0\0\0\0\0\0\0\0\0\0\0\0\0\0\0\0\0\0\0\0\0\0\0\0\0\0\0\0\0\0\0\0\0\0\0";

// What stands after the front of a file that isn't ours at the gate of its first record.
const BEHIND: &[Text] = &[
    // a length that is more than the file
    b"\x01\xff\xff\xff\xff",
    // an item that has no name
    b"\x01\0\0\0\x01\x09\0",
    // a source with the content 0, where there is none
    b"\x01\0\0\0\x0c\x03\0\0\0\x03a.c\0\0\0\0\0",
];

// Whether a session over such a file tells it, and leaves the file as it was.
fn is_not_ours(alloc: Global, behind: &[u8]) -> Result<bool, Memory> {
    let mut image = FRONT.to_vec(alloc)?;
    image.extend_from_slice(behind)?;
    let mut disk = disk_of(alloc, image.as_slice())?;
    let ran = run_over(alloc, "1", NONE, &mut disk, b"sources\n")?;
    let told = ran.status == 7 && ran.output.as_slice() == b"store: not ours at 64\n".as_slice();
    Ok(told && disk.image() == image.as_slice())
}

// Whether a file of one byte is a new store.
fn is_new(alloc: Global) -> Result<bool, Memory> {
    let mut disk = disk_of(alloc, b"O")?;
    let opened = run_over(alloc, "1", NONE, &mut disk, b"")?;
    let used = run_over(alloc, "1", NONE, &mut disk, b"sources\n")?;
    Ok(opened.replied(b"") && used.replied(b"sources 0\n"))
}

#[test]
fn files_at_their_limits_are_told(rt: HostRuntime) -> Result<(), Fail> {
    for (row, behind) in BEHIND.iter().enumerate() {
        assert!(rt; is_not_ours(rt.alloc(), behind)?, "{row}");
    }
    assert!(rt; is_new(rt.alloc())?);
    Ok(())
}

// ---- inputs

// What stands before and after so many spaces, the status, and the output.
type Input = (Text, usize, Text, u8, Text);

const INPUTS: &[Input] = &[
    (b"ask a", 1000, b"\n", 0, b"refused expression 1001\n"),
    (b"", 1025, b"\n", 0, b"refused command\n"),
    (
        b"put a.c 18446744073709551616\n",
        0,
        b"",
        0,
        b"refused command\n",
    ),
    (b"put a.c 18446744073709551615", 0, b"", 1, b""),
    (b"put a.c 18446744073709551615\n", 70_000, b"quit\n", 1, b""),
];

// Whether a session goes so.
fn goes(alloc: Global, row: &Input) -> Result<bool, Memory> {
    let (front, count, behind, status, output) = row;
    let mut commands = front.to_vec(alloc)?;
    let spaces = vec![in alloc; b' '; *count]?;
    commands.extend_from_slice(spaces.as_slice())?;
    commands.extend_from_slice(behind)?;
    let mut disk = disk_of(alloc, b"")?;
    let ran = run_over(alloc, "1", NONE, &mut disk, commands.as_slice())?;
    Ok(ran.status == *status && ran.output.as_slice() == *output)
}

#[test]
fn inputs_at_their_limits_are_answered(rt: HostRuntime) -> Result<(), Fail> {
    for (row, input) in INPUTS.iter().enumerate() {
        assert!(rt; goes(rt.alloc(), input)?, "{row}");
    }
    Ok(())
}

// ---- graphs and tools

// The status and the output of a session over a graph, whose tools all leave these files.
fn answered(
    alloc: Global,
    graph: &[u8],
    files: Seq<FileBody>,
    commands: &[u8],
) -> Result<(u8, Vec<u8>), Memory> {
    let raw = Raw {
        end: End::Exit(0),
        files,
    };
    let mut tools = TableTools::table(alloc, Seq::new(alloc), raw, only(alloc, 0)?);
    let words = owned(alloc, &["odin", "g0"])?;
    let mut input = source(alloc, commands, 7)?;
    let mut output = sink(alloc, 100_000, 5000)?;
    let mut tree = tree_of(alloc, &[(b"g0", graph)])?;
    let mut disk = MemDisk::new(alloc, Bytes::new(alloc), 1 << 25, 1024)?;
    let status = run(
        alloc,
        words.as_slice(),
        &mut input,
        &mut output,
        &mut tree,
        &mut disk,
        &mut tools,
    );
    Ok((status, output.taken().to_vec(alloc)?))
}

// Adds lines with the numbers below a count, each between two texts.
fn add_lines(out: &mut Bytes, front: &[u8], count: u64, back: &[u8]) -> Result<(), Memory> {
    for number in 0..count {
        out.extend_from_slice(front)?;
        write_number(number, out)?;
        out.extend_from_slice(back)?;
    }
    Ok(())
}

// Whether one declaration more than a graph may have is told.
fn tells_a_great_graph(alloc: Global) -> Result<bool, Memory> {
    let mut graph = Bytes::new(alloc);
    add_lines(&mut graph, b"param p", 2001, b";\n")?;
    let (status, output) = answered(alloc, graph.as_slice(), Seq::new(alloc), b"quit\n")?;
    Ok(status == 2 && output.as_slice() == b"graph: line 2001: too many\n".as_slice())
}

// A file that a tool leaves.
fn file_of(alloc: Global, name: &[u8], body: &[u8]) -> Result<FileBody, Memory> {
    let name = Bytes::from_slice(alloc, name)?;
    let body = body_of(alloc, body)?;
    Ok(FileBody { name, body })
}

const ASKED: Text = b"put a.c 0\nask a.c:o\n";

// Whether a tool whose output is a byte longer than a text may be ends the object.
fn refuses_a_long_output(alloc: Global) -> Result<bool, Memory> {
    let long = vec![in alloc; b'x'; 16_777_217]?;
    let mut files = Seq::new(alloc);
    files.push(file_of(alloc, b"out.o", long.as_slice())?)?;
    let (status, output) = answered(alloc, CC_ONLY, files, ASKED)?;
    let wanted: Text =
        b"put a.c 0\nobject abort none 0\nmessages 1\nabort a.c:o output o too long\n";
    Ok(status == 0 && output.as_slice() == wanted)
}

// Whether the first thousand of more warnings are shown.
fn shows_a_thousand_messages(alloc: Global) -> Result<bool, Memory> {
    let mut lines = Bytes::new(alloc);
    add_lines(&mut lines, b"w", 1001, b"\n")?;
    let mut files = Seq::new(alloc);
    files.push(file_of(alloc, b"out.o", b"")?)?;
    files.push(file_of(alloc, b"warnings", lines.as_slice())?)?;
    let (status, output) = answered(alloc, CC_ONLY, files, ASKED)?;
    let mut wanted = Bytes::new(alloc);
    wanted.extend_from_slice(b"put a.c 0\nobject warning simple 0\n\nmessages 1000\n")?;
    add_lines(&mut wanted, b"warning a.c:o w", 1000, b"\n")?;
    Ok(status == 0 && output.as_slice() == wanted.as_slice())
}

#[test]
fn graphs_and_tools_past_their_limits_are_told(rt: HostRuntime) -> Result<(), Fail> {
    assert!(rt; tells_a_great_graph(rt.alloc())?);
    assert!(rt; refuses_a_long_output(rt.alloc())?);
    assert!(rt; shows_a_thousand_messages(rt.alloc())?);
    Ok(())
}
