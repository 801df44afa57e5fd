// The outcomes of what jobs leave.
use super::texts::{Files, Text, call_of, put_files};
use object_values::{Bytes, End, FileBody, Memory, Part, Raw, Seq, Status, Text as Body};
use odin_bytes::write_number;
use std::alloc::Global;
use std::test::Fail;
use tool_calls::{Outcome, OwnLine, outcome_of};

// A status, lines with their levels, and outputs with their bytes.
type Wanted = (Status, &'static [(Status, Text)], Files);

// The outcome of a call with these outputs.
fn outcome_for(alloc: Global, outs: &[&[u8]], raw: &Raw) -> Result<Outcome, Memory> {
    let call = call_of(alloc, &[b"cc"], outs)?;
    outcome_of(alloc, &call, raw)
}

// The outcome of a call whose job ended so and left these files.
fn outcome_in(
    alloc: Global,
    outs: &[&[u8]],
    end: End,
    left: &[(&[u8], &[u8])],
) -> Result<Outcome, Memory> {
    let mut raw = Raw {
        end,
        files: Seq::new(alloc),
    };
    put_files(alloc, &mut raw.files, left)?;
    outcome_for(alloc, outs, &raw)
}

// Whether a list holds lines with these levels and texts, in this order.
fn are_lines(found: &[OwnLine], wanted: &[(Status, Text)]) -> bool {
    found.len() == wanted.len()
        && found.iter().zip(wanted).all(|(line, (level, text))| line.level == *level
            && line.text.as_slice() == *text)
}

// Whether a list holds outputs with these names and bytes, in this order.
fn are_outputs(found: &[Part], wanted: &[(Text, Text)]) -> bool {
    found.len() == wanted.len()
        && found.iter().zip(wanted).all(|(part, (name, body))| part.name.as_slice() == *name
            && part.body.as_slice() == *body)
}

// Whether an outcome has this status, these lines and these outputs.
fn is_wanted(outcome: &Outcome, wanted: Wanted) -> bool {
    let (status, lines, outputs) = wanted;
    outcome.status == status
        && are_lines(outcome.lines.as_slice(), lines)
        && are_outputs(outcome.outputs.as_slice(), outputs)
}

// Whether a call whose job ended so and left these files has the wanted outcome.
fn comes_out(
    alloc: Global,
    outs: &[&[u8]],
    end: End,
    left: &[(&[u8], &[u8])],
    wanted: Wanted,
) -> Result<bool, Memory> {
    let outcome = outcome_in(alloc, outs, end, left)?;
    Ok(is_wanted(&outcome, wanted))
}

// How a job ended that left the output `o` of one byte, and the outcome.
const ENDS: &[(End, Wanted)] = &[
    (End::Exit(0), (Status::Ok, &[], &[(b"o", b"x")])),
    (End::Exit(1), (Status::Error, &[], &[(b"o", b"x")])),
    (
        End::Exit(2),
        (
            Status::Abort,
            &[(Status::Abort, b"tool cc ended with status 2")],
            &[],
        ),
    ),
    (
        End::Exit(127),
        (
            Status::Abort,
            &[(Status::Abort, b"tool cc ended with status 127")],
            &[],
        ),
    ),
    (
        End::Exit(255),
        (
            Status::Abort,
            &[(Status::Abort, b"tool cc ended with status 255")],
            &[],
        ),
    ),
    (
        End::Signal,
        (
            Status::Abort,
            &[(Status::Abort, b"tool cc ended by a signal")],
            &[],
        ),
    ),
];

// Whether this is the outcome where the output is left alone, and where it is left behind empty warnings.
fn both_come_out(alloc: Global, end: End, wanted: Wanted) -> Result<bool, Memory> {
    let alone: Files = &[(b"out.o", b"x")];
    let behind: Files = &[(b"warnings", b""), (b"out.o", b"x")];
    Ok(
        comes_out(alloc, &[b"o"], end, alone, wanted)?
            && comes_out(alloc, &[b"o"], end, behind, wanted)?,
    )
}

#[test]
fn the_end_gives_the_status(rt: HostRuntime) -> Result<(), Fail> {
    for (end, wanted) in ENDS {
        assert!(rt; both_come_out(rt.alloc(), *end, *wanted)?);
    }
    Ok(())
}

// How a job ended that left warnings and the output `o`, and the outcome.
const LEVELS: &[(End, Wanted)] = &[
    (
        End::Exit(0),
        (
            Status::Warning,
            &[(Status::Warning, b"a"), (Status::Warning, b"b")],
            &[(b"o", b"x")],
        ),
    ),
    (
        End::Exit(1),
        (
            Status::Error,
            &[(Status::Error, b"a"), (Status::Error, b"b")],
            &[(b"o", b"x")],
        ),
    ),
    (
        End::Exit(2),
        (
            Status::Abort,
            &[
                (Status::Abort, b"a"),
                (Status::Abort, b"b"),
                (Status::Abort, b"tool cc ended with status 2"),
            ],
            &[],
        ),
    ),
    (
        End::Signal,
        (
            Status::Abort,
            &[
                (Status::Abort, b"a"),
                (Status::Abort, b"b"),
                (Status::Abort, b"tool cc ended by a signal"),
            ],
            &[],
        ),
    ),
];

#[test]
fn the_end_gives_the_level_of_lines(rt: HostRuntime) -> Result<(), Fail> {
    let left: Files = &[(b"warnings", b"a\n\nb"), (b"out.o", b"x")];
    for (end, wanted) in LEVELS {
        assert!(rt; comes_out(rt.alloc(), &[b"o"], *end, left, *wanted)?);
    }
    Ok(())
}

// The names of the outputs, what a job with the exit status 0 left, and the outcome.
const OUTPUTS: &[(&[Text], Files, Wanted)] = &[
    (
        &[b"o"],
        &[],
        (Status::Abort, &[(Status::Abort, b"no output o")], &[]),
    ),
    (
        &[b"o"],
        &[(b"warnings", b"a")],
        (
            Status::Abort,
            &[(Status::Warning, b"a"), (Status::Abort, b"no output o")],
            &[],
        ),
    ),
    (
        &[b"o"],
        &[(b"o", b"x"), (b"out.O", b"x")],
        (Status::Abort, &[(Status::Abort, b"no output o")], &[]),
    ),
    (
        &[b"p", b"q"],
        &[],
        (
            Status::Abort,
            &[
                (Status::Abort, b"no output p"),
                (Status::Abort, b"no output q"),
            ],
            &[],
        ),
    ),
    (
        &[b"p", b"q"],
        &[(b"out.p", b"1")],
        (Status::Abort, &[(Status::Abort, b"no output q")], &[]),
    ),
    (
        &[b"p", b"q"],
        &[(b"out.q", b"2"), (b"out.p", b"1")],
        (Status::Ok, &[], &[(b"p", b"1"), (b"q", b"2")]),
    ),
    (
        &[b"p", b"p"],
        &[(b"out.p", b"1")],
        (Status::Ok, &[], &[(b"p", b"1"), (b"p", b"1")]),
    ),
    // the first file of a name counts
    (
        &[b"o"],
        &[
            (b"warnings", b"a"),
            (b"out.o", b"1"),
            (b"warnings", b"b"),
            (b"out.o", b"2"),
            (b"out.p", b"3"),
            (b"x", b"4"),
        ],
        (Status::Warning, &[(Status::Warning, b"a")], &[(b"o", b"1")]),
    ),
];

#[test]
fn outputs_are_looked_for_by_name(rt: HostRuntime) -> Result<(), Fail> {
    for (outs, left, wanted) in OUTPUTS {
        assert!(rt; comes_out(rt.alloc(), outs, End::Exit(0), left, *wanted)?);
    }
    Ok(())
}

// Warnings, and the status and the lines that they give.
const WARNINGS: &[(Text, Status, &[(Status, Text)])] = &[
    (b"\r\n\n", Status::Ok, &[]),
    (
        b"a\r\nb\r\r\n",
        Status::Warning,
        &[(Status::Warning, b"a"), (Status::Warning, b"b\r")],
    ),
    (
        b"a\rb\nc\r",
        Status::Warning,
        &[(Status::Warning, b"a\rb"), (Status::Warning, b"c\r")],
    ),
    (b"\r", Status::Warning, &[(Status::Warning, b"\r")]),
];

// Whether these warnings, beside an empty output, give the status and the lines.
fn warns(
    alloc: Global,
    text: &[u8],
    status: Status,
    lines: &'static [(Status, Text)],
) -> Result<bool, Memory> {
    let left = [(b"warnings".as_slice(), text), (b"out.o", b"")];
    let wanted: Wanted = (status, lines, &[(b"o", b"")]);
    comes_out(alloc, &[b"o"], End::Exit(0), &left, wanted)
}

#[test]
fn warnings_are_cut_at_lf(rt: HostRuntime) -> Result<(), Fail> {
    for (text, status, lines) in WARNINGS {
        assert!(rt; warns(rt.alloc(), text, *status, lines)?);
    }
    Ok(())
}

// The outcome of a call with the output `o` whose job left these files and one more.
fn outcome_with(alloc: Global, left: &[(&[u8], &[u8])], file: FileBody) -> Result<Outcome, Memory> {
    let mut files = Seq::new(alloc);
    put_files(alloc, &mut files, left)?;
    files.push(file)?;
    let raw = Raw {
        end: End::Exit(0),
        files,
    };
    outcome_for(alloc, &[b"o"], &raw)
}

// The outcome where the output has so many bytes.
fn outcome_of_long(alloc: Global, length: usize) -> Result<Outcome, Memory> {
    let file = FileBody {
        name: Bytes::from_slice(alloc, b"out.o")?,
        body: Body::of(Bytes::from_vec(vec![in alloc; b'x'; length]?))?,
    };
    outcome_with(alloc, &[], file)
}

// Whether the only output has the longest length.
fn has_longest(outcome: &Outcome) -> bool {
    match outcome.outputs.as_slice() {
        [output] => outcome.status == Status::Ok && output.body.len() == 16_777_216,
        _ => false,
    }
}

// Whether the output was refused for its length, with no other line.
fn is_too_long(outcome: &Outcome) -> bool {
    let lines: &[(Status, Text)] = &[(Status::Abort, b"output o too long")];
    is_wanted(outcome, (Status::Abort, lines, &[]))
}

#[test]
fn outputs_have_a_longest_length(rt: HostRuntime) -> Result<(), Fail> {
    let outcome = outcome_of_long(rt.alloc(), 16_777_216)?;
    assert!(rt; has_longest(&outcome));
    Ok(())
}

#[test]
fn longer_outputs_are_refused(rt: HostRuntime) -> Result<(), Fail> {
    let outcome = outcome_of_long(rt.alloc(), 16_777_217)?;
    assert!(rt; is_too_long(&outcome));
    Ok(())
}

// Adds the numbers from 2 to 1,001, each after an empty line.
fn put_numbers(warnings: &mut Bytes) -> Result<(), Memory> {
    for number in 2..1_002 {
        warnings.extend_from_slice(b"\n\n")?;
        write_number(number, warnings)?;
    }
    Ok(())
}

// A line of 1,001 bytes, and then the numbers.
fn long_warnings(alloc: Global) -> Result<Bytes, Memory> {
    let mut warnings = Bytes::from_vec(vec![in alloc; b'x'; 1_001]?);
    put_numbers(&mut warnings)?;
    Ok(warnings)
}

// The outcome where the warnings have more lines, and a longer one, than an outcome has.
fn warned(alloc: Global) -> Result<Outcome, Memory> {
    let file = FileBody {
        name: Bytes::from_slice(alloc, b"warnings")?,
        body: Body::of(long_warnings(alloc)?)?,
    };
    outcome_with(alloc, &[(b"out.o", b"")], file)
}

// The length of the line at this place, where lines have no more than 1,000 bytes.
fn length_at(place: usize) -> usize {
    match place {
        0 => 1_000,
        1..9 => 1,
        9..99 => 2,
        99..999 => 3,
        _ => 4,
    }
}

// Whether there are the most lines, each with its length.
fn are_cut(lines: &[OwnLine]) -> bool {
    lines.len() == 1_000
        && lines
            .iter()
            .enumerate()
            .all(|(place, line)| line.text.len() == length_at(place))
}

#[test]
fn warnings_have_a_most_of_lines_and_bytes(rt: HostRuntime) -> Result<(), Fail> {
    let outcome = warned(rt.alloc())?;
    assert!(rt; are_cut(outcome.lines.as_slice()));
    Ok(())
}
