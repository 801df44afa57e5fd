// What the toy tools leave.
use super::texts::{Files, Text, are_files, put_files, put_texts};
use object_values::{End, Job, Memory, Raw, Seq};
use odin_memory::toy;
use std::alloc::Global;
use std::test::Fail;

// Fills in the words, the files and the outputs.
fn put_job(
    alloc: Global,
    job: &mut Job,
    words: &[Text],
    files: &[(&[u8], &[u8])],
    outs: &[Text],
) -> Result<(), Memory> {
    put_texts(alloc, &mut job.words, words)?;
    put_files(alloc, &mut job.files, files)?;
    put_texts(alloc, &mut job.outs, outs)
}

// What is left of a job with these words, files and outputs.
fn left(
    alloc: Global,
    words: &[Text],
    files: &[(&[u8], &[u8])],
    outs: &[Text],
) -> Result<Raw, Memory> {
    let mut job = Job {
        words: Seq::new(alloc),
        files: Seq::new(alloc),
        outs: Seq::new(alloc),
    };
    put_job(alloc, &mut job, words, files, outs)?;
    toy(alloc, &job)
}

// Whether a job ends so and leaves these files.
fn leaves(
    alloc: Global,
    words: &[Text],
    files: &[(&[u8], &[u8])],
    outs: &[Text],
    end: End,
    wanted: &[(&[u8], &[u8])],
) -> Result<bool, Memory> {
    let raw = left(alloc, words, files, outs)?;
    Ok(raw.end == end && are_files(raw.files.as_slice(), wanted))
}

// Whether a tool leaves these warnings and this output.
fn makes(
    alloc: Global,
    tool: Text,
    files: &[(&[u8], &[u8])],
    warnings: &[u8],
    output: &[u8],
) -> Result<bool, Memory> {
    let wanted = [(b"warnings".as_slice(), warnings), (b"o", output)];
    leaves(alloc, &[tool], files, &[b"o"], End::Exit(0), &wanted)
}

// The words, the end and the files that are left.
const CHOICES: &[(&[Text], End, Files)] = &[
    (
        &[b"scan"],
        End::Exit(0),
        &[(b"warnings", b""), (b"out.o", b"a.h\n")],
    ),
    (
        &[b"cc", b"scan"],
        End::Exit(0),
        &[(b"warnings", b""), (b"out.o", b"x\ny\n")],
    ),
    (
        &[b"ld"],
        End::Exit(0),
        &[(b"warnings", b""), (b"out.o", b"include a.h\nxy\n")],
    ),
    (&[b"ccc"], End::Exit(127), &[]),
    (&[b"", b"cc"], End::Exit(127), &[]),
    (&[], End::Exit(127), &[]),
];

#[test]
fn the_first_word_chooses(rt: HostRuntime) -> Result<(), Fail> {
    let files: Files = &[
        (b"call", b"odin 1\n"),
        (b"i1", b"include a.h\nx"),
        (b"i2", b"y\n"),
    ];
    let outs: &[Text] = &[b"warnings", b"out.o"];
    for (words, end, wanted) in CHOICES {
        assert!(rt; leaves(rt.alloc(), words, files, outs, *end, wanted)?);
    }
    Ok(())
}

// The names of the outputs, and the files that are left.
const OUTPUTS: &[(&[Text], Files)] = &[
    (&[], &[(b"warnings", b"")]),
    (&[b"out.o"], &[(b"warnings", b""), (b"out.o", b"x")]),
    (
        &[b"warnings", b"out.p", b"out.o"],
        &[(b"warnings", b""), (b"out.o", b"x")],
    ),
];

#[test]
fn the_last_name_is_the_output(rt: HostRuntime) -> Result<(), Fail> {
    let files: Files = &[(b"i1", b"x")];
    for (outs, wanted) in OUTPUTS {
        assert!(rt; leaves(rt.alloc(), &[b"ld"], files, outs, End::Exit(0), wanted)?);
    }
    Ok(())
}

// A tool, its files, and the warnings and the output that it leaves.
const MADE: &[(Text, Files, Text, Text)] = &[
    // inputs are known by their names
    (
        b"ld",
        &[
            (b"i3", b"c"),
            (b"i1", b"a"),
            (b"i0", b"z"),
            (b"i01", b"z"),
            (b"i", b"z"),
            (b"ix", b"z"),
            (b"i1x", b"z"),
            (b"I1", b"z"),
            (b"i10", b"d"),
            (b"i1", b"e"),
            (b"x1", b"z"),
            (b"i99999999999999999999", b"f"),
            (b"", b"z"),
        ],
        b"",
        b"cadef",
    ),
    // scan gives the names of the first input
    (b"scan", &[], b"", b""),
    (b"scan", &[(b"i2", b"include a")], b"", b""),
    (
        b"scan",
        &[
            (b"i2", b"include b"),
            (b"i1", b"include a\r\n"),
            (b"i1", b"include c"),
        ],
        b"",
        b"a\r\n",
    ),
    (
        b"scan",
        &[(b"i1", b"include\ninclude \n include x\ninclude  y")],
        b"",
        b"\n y\n",
    ),
    // cc passes over lines
    (
        b"cc",
        &[(b"i1", b"a\n\nb"), (b"i2", b""), (b"i3", b"c\r\n\r\n")],
        b"",
        b"a\n\nb\nc\r\n\r\n",
    ),
    (
        b"cc",
        &[(b"i1", b"include q\n// r\n!s\n /t\n include u\n")],
        b"",
        b" /t\n include u\n",
    ),
    (
        b"cc",
        &[
            (b"i2", b"//!b\n//! c\n // !d\n"),
            (b"i1", b"x//!\n//!a\n//!"),
        ],
        b"b\n c\na\n\n",
        b" // !d\nx//!\n",
    ),
    (b"cc", &[(b"i2", b"x")], b"", b"x\n"),
    // cc knows debug
    (
        b"cc",
        &[
            (b"call", b"odin 1\nparam debug 1\nparam debug 2\n"),
            (b"i1", b"x"),
        ],
        b"",
        b"debug\nx\n",
    ),
    (
        b"cc",
        &[(b"i1", b"x"), (b"call", b"param debug ")],
        b"",
        b"debug\nx\n",
    ),
    (
        b"cc",
        &[
            (b"call", b"param debug\nparam debugs 1\n param debug 1"),
            (b"i1", b"x"),
        ],
        b"",
        b"x\n",
    ),
    (
        b"cc",
        &[(b"call", b""), (b"call", b"param debug 1"), (b"i1", b"x")],
        b"",
        b"x\n",
    ),
    // directives count in the first input alone
    (
        b"cc",
        &[(b"i2", b"!signal"), (b"i1", b"x"), (b"i1", b"!none")],
        b"",
        b"x\n",
    ),
];

#[test]
fn tools_make_warnings_and_an_output(rt: HostRuntime) -> Result<(), Fail> {
    for (tool, files, warnings, output) in MADE {
        assert!(rt; makes(rt.alloc(), tool, files, warnings, output)?);
    }
    Ok(())
}

// The text of the only input, and the end and the files that cc leaves.
const DIRECTIVES: &[(Text, End, Files)] = &[
    (
        b"//!w\n!signal\nx",
        End::Signal,
        &[(b"warnings", b"w\n"), (b"o", b"x\n")],
    ),
    (
        b"!exit 1\n//!w\nx",
        End::Exit(1),
        &[(b"warnings", b"w\n"), (b"o", b"x\n")],
    ),
    (
        b"x\n!exit 255",
        End::Exit(255),
        &[(b"warnings", b""), (b"o", b"x\n")],
    ),
    (
        b"!exit 0\n",
        End::Exit(0),
        &[(b"warnings", b""), (b"o", b"")],
    ),
    (b"!none\n//!w\nx", End::Exit(0), &[(b"warnings", b"w\n")]),
];

// Whether cc ends so and leaves these files where its only input has this text.
fn compiles(
    alloc: Global,
    text: &[u8],
    end: End,
    wanted: &[(&[u8], &[u8])],
) -> Result<bool, Memory> {
    leaves(alloc, &[b"cc"], &[(b"i1", text)], &[b"o"], end, wanted)
}

#[test]
fn directives_change_the_end(rt: HostRuntime) -> Result<(), Fail> {
    for (text, end, wanted) in DIRECTIVES {
        assert!(rt; compiles(rt.alloc(), text, *end, wanted)?);
    }
    Ok(())
}

// The text of the only input, and the output.
const OTHERS: &[(Text, Text)] = &[
    (b"!exit 256", b""),
    (b"!exit 007", b""),
    (b"!exit ", b""),
    (b"!exit", b""),
    (b"!exit 1 ", b""),
    (b"!exit  1", b""),
    (b"! none", b""),
    (b"!none ", b""),
    (b"!signal\r", b""),
    (b"!\n!signal", b""),
    (b"!other\n!exit 3\n!none", b""),
    (b" !none", b" !none\n"),
];

// Whether cc leaves no warnings and this output where its only input has this text.
fn passes_over(alloc: Global, text: &[u8], output: &[u8]) -> Result<bool, Memory> {
    makes(alloc, b"cc", &[(b"i1", text)], b"", output)
}

#[test]
fn other_directives_do_nothing(rt: HostRuntime) -> Result<(), Fail> {
    for (text, output) in OTHERS {
        assert!(rt; passes_over(rt.alloc(), text, output)?);
    }
    Ok(())
}
