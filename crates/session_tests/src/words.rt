// The worked rows of words: which a run takes, for a session or a load session, and for which it writes the usage line.
use super::runs::{DISK_BYTES, DISK_CALLS, status_over, with_taken};
use object_values::{Bytes, Memory, Seq};
use odin_fakes::{FailDisk, FailSource, FailTools, FailTree, MemDisk, TableTools};
use odin_shell::run;
use std::alloc::Global;
use std::test::Fail;
use test_support::{CC_ONLY, only, owned, sink, source, tree_of};

const USAGE: &[u8] = b"usage: odin [--jobs N] GRAPH, or odin [--jobs N] --load N\n";

const REPLY: &[u8] = b"object abort none 0\nmessages 1\nabort a.c no source a.c\n";

const LOAD_OF_ONE: &[u8] = b"load 1\nstarts 4 3 0\nlength 10\nkept 7\n";

const LOAD_OF_FORTY: &[u8] = b"load 40\nstarts 93 6 0\nlength 440\nkept 99\n";

// What a run writes, with its status: the reply of a session, the lines of a load session, or the usage line.
const SERVED: (u8, &[u8]) = (0, REPLY);

const LOADED: (u8, &[u8]) = (0, LOAD_OF_ONE);

const REFUSED: (u8, &[u8]) = (9, USAGE);

// Files with the graph by each name that is asked for.
const FILES: [(&[u8], &[u8]); 6] = [
    (b"g0", CC_ONLY),
    (b"-g", CC_ONLY),
    (b"--jobs", CC_ONLY),
    (b"--load", CC_ONLY),
    (b"help", CC_ONLY),
    (b"", CC_ONLY),
];

// The status and the output of a run with these words and so much room, over an input that asks once.
fn outcome(alloc: Global, words: &[&str], room: usize) -> Result<(u8, Vec<u8>), Memory> {
    let owned = owned(alloc, words)?;
    let mut input = source(alloc, b"ask a.c\n", 7)?;
    let mut output = sink(alloc, room, 7)?;
    let mut tree = tree_of(alloc, &FILES)?;
    let mut tools = TableTools::toy(alloc, Seq::new(alloc));
    let status = status_over(
        alloc,
        owned.as_slice(),
        &mut input,
        &mut output,
        &mut tree,
        &mut tools,
    )?;
    with_taken(alloc, status, output.taken())
}

// Words after the program's name, and what a run with them ends with.
const ROWS: &[(&[&str], (u8, &[u8]))] = &[
    (&["g0"], SERVED),
    (&["--jobs", "2", "g0"], SERVED),
    (&["g0", "--jobs", "2"], SERVED),
    (&["--jobs=64", "g0"], SERVED),
    (&["--jobs=1", "--", "g0"], SERVED),
    (&["--", "-g"], SERVED),
    (&["--", "--jobs"], SERVED),
    (&["--jobs", "2", "--", "--jobs"], SERVED),
    (&[""], SERVED),
    (&[], REFUSED),
    (&["--"], REFUSED),
    (&["--jobs", "2"], REFUSED),
    (&["--jobs", "g0"], REFUSED),
    (&["g0", "--jobs"], REFUSED),
    (&["g0", "g0"], REFUSED),
    (&["g0", "--", "g0"], REFUSED),
    (&["--jobs", "1", "--jobs", "1", "g0"], REFUSED),
    (&["--jobs=1", "g0", "--jobs=2"], REFUSED),
    (&["--jobs", "0", "g0"], REFUSED),
    (&["--jobs", "65", "g0"], REFUSED),
    (&["--jobs", "064", "g0"], REFUSED),
    (&["--jobs", "+1", "g0"], REFUSED),
    (&["--jobs", "-1", "g0"], REFUSED),
    (&["--jobs", "1 ", "g0"], REFUSED),
    (&["--jobs", "", "g0"], REFUSED),
    (&["--jobs=", "g0"], REFUSED),
    (&["--jobs=x", "g0"], REFUSED),
    (&["--jobs", "18446744073709551617", "g0"], REFUSED),
    (&["--job", "1", "g0"], REFUSED),
    (&["--JOBS", "1", "g0"], REFUSED),
    (&["-j", "1", "g0"], REFUSED),
    (&["-g"], REFUSED),
    (&["-j1", "g0"], REFUSED),
    (&["--help"], REFUSED),
    (&["-h"], REFUSED),
    (&["--version"], REFUSED),
    (&["-V"], REFUSED),
    (&["help"], SERVED),
    (&["--load", "1"], LOADED),
    (&["--load=1"], LOADED),
    (&["--jobs", "2", "--load", "1"], LOADED),
    (&["--load", "1", "--jobs=64"], LOADED),
    (&["--load", "1", "--"], LOADED),
    (&["--", "--load"], SERVED),
    (&["--load"], REFUSED),
    (&["--load", "1", "g0"], REFUSED),
    (&["g0", "--load=1"], REFUSED),
    (&["--load", "1", "--", "g0"], REFUSED),
    (&["--load", "g0"], REFUSED),
    (&["--load", "1", "--load", "1"], REFUSED),
    (&["--load=1", "--load=2"], REFUSED),
    (&["--load", "0"], REFUSED),
    (&["--load", "2001"], REFUSED),
    (&["--load", "01"], REFUSED),
    (&["--load", "+1"], REFUSED),
    (&["--load", "-1"], REFUSED),
    (&["--load", " 1"], REFUSED),
    (&["--load="], REFUSED),
    (&["--load", "4294967297"], REFUSED),
    (&["--load", "18446744073709551617"], REFUSED),
    (&["--jobs", "0", "--load", "1"], REFUSED),
    (&["--jobs", "65", "--load", "1"], REFUSED),
    (&["--loa", "1"], REFUSED),
    (&["-l", "1"], REFUSED),
];

// The program's name and these words.
fn with_program(alloc: Global, words: &[&'static str]) -> Result<Vec<&'static str>, Memory> {
    let mut all = Vec::new(alloc);
    all.push("odin")?;
    all.extend_from_slice(words)?;
    Ok(all)
}

#[test]
fn words_are_taken_or_refused(rt: HostRuntime) -> Result<(), Fail> {
    for (row, (end, want)) in ROWS {
        let words = with_program(rt.alloc(), row)?;
        let (status, output) = outcome(rt.alloc(), words.as_slice(), 100)?;
        assert!(rt; status == *end, "{row:?}");
        assert!(rt; output.as_slice() == *want, "{row:?}");
    }
    Ok(())
}

#[test]
fn a_usage_line_that_is_cut_off_is_an_output_fault(rt: HostRuntime) -> Result<(), Fail> {
    let rows: [&[&str]; 3] = [&[], &["odin"], &["odin", "g0", "g0"]];
    for words in rows {
        for (room, end) in [(USAGE.len(), 9), (20, 5), (0, 5)] {
            let (status, output) = outcome(rt.alloc(), words, room)?;
            assert_eq!(rt; status, end);
            assert!(rt; output.as_slice() == &USAGE[..room]);
        }
    }
    Ok(())
}

#[test]
fn load_lines_that_are_cut_off_are_an_output_fault(rt: HostRuntime) -> Result<(), Fail> {
    for (room, end) in [(LOAD_OF_ONE.len(), 0), (36, 5), (7, 5), (0, 5)] {
        let (status, output) = outcome(rt.alloc(), &["odin", "--load", "1"], room)?;
        assert!(rt; status == end, "room for {room}");
        assert!(rt;
            output.as_slice() == &LOAD_OF_ONE[..room],
            "room for {room}"
        );
    }
    Ok(())
}

// The status and the output of a load session, and how many calls the disk took that was handed in. The first call of the disk, the input, the
// tree and the tools would fail.
fn load_over_faults(alloc: Global, units: &str) -> Result<(u8, Vec<u8>, usize), Memory> {
    let words = owned(alloc, &["odin", "--load", units])?;
    let mut input = FailSource::new(source(alloc, b"ask a.c\n", 7)?, only(alloc, 1)?);
    let mut output = sink(alloc, 100, 7)?;
    let mut tree = FailTree::new(tree_of(alloc, &FILES)?, only(alloc, 1)?);
    let disk = MemDisk::new(alloc, Bytes::new(alloc), DISK_BYTES, DISK_CALLS)?;
    let mut disk = FailDisk::new(disk, only(alloc, 1)?);
    let mut tools = FailTools::new(TableTools::toy(alloc, Seq::new(alloc)), only(alloc, 1)?);
    let status = run(
        alloc,
        words.as_slice(),
        &mut input,
        &mut output,
        &mut tree,
        &mut disk,
        &mut tools,
    );
    let calls = disk.inner().calls();
    Ok((status, output.taken().to_vec(alloc)?, calls))
}

#[test]
fn a_load_session_uses_nothing_but_the_output(rt: HostRuntime) -> Result<(), Fail> {
    for (units, lines) in [("1", LOAD_OF_ONE), ("40", LOAD_OF_FORTY)] {
        let (status, output, calls) = load_over_faults(rt.alloc(), units)?;
        assert!(rt; (status, calls) == (0, 0), "load {units}");
        assert!(rt; output.as_slice() == lines, "load {units}");
    }
    Ok(())
}
