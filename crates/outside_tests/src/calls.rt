// The jobs of calls.
use super::texts::{Files, Text, are_files, are_texts, body_of, call_of};
use object_values::{Bytes, Call, Job, Memory, ParamValue, Seq, Text as Body};
use std::alloc::Global;
use std::test::Fail;
use tool_calls::{CallPart, job_of};

// A call: its words, the names of its outputs, its parameters with their values, and its inputs, each with its slot, its label
// and its bytes. Then the names of the outputs and the files of its job, whose words are those of the call.
struct Row {
    words: &'static [Text],
    outs: &'static [Text],
    params: &'static [(Text, Text)],
    parts: &'static [(u32, Text, Option<Text>)],
    job_outs: &'static [Text],
    job_files: Files,
}

const JOBS: &[Row] = &[
    Row {
        words: &[b"cc"],
        outs: &[b"o"],
        params: &[],
        parts: &[
            (0, b"a.c", Some(b"include a.h\nx=1\n")),
            (1, b"a.h", Some(b"include b.h\ny=2\n")),
            (1, b"b.h", Some(b"include a.h\nz=3\n")),
        ],
        job_outs: &[b"warnings", b"out.o"],
        job_files: &[
            (
                b"call",
                b"odin 1\ntool cc 1.2\npart 0 i1 a.c\npart 1 i2 a.h\npart 1 i3 b.h\nout out.o\n",
            ),
            (b"i1", b"include a.h\nx=1\n"),
            (b"i2", b"include b.h\ny=2\n"),
            (b"i3", b"include a.h\nz=3\n"),
        ],
    },
    // an absent input has no file
    Row {
        words: &[b"cc"],
        outs: &[b"o"],
        params: &[],
        parts: &[
            (0, b"a.c", Some(b"x=1\n")),
            (1, b"x.h", None),
            (4_294_967_295, b"b.h", Some(b"")),
        ],
        job_outs: &[b"warnings", b"out.o"],
        job_files: &[
            (
                b"call",
                b"odin 1\ntool cc 1.2\npart 0 i1 a.c\npart 1 - x.h\npart 4294967295 i3 b.h\nout out.o\n",
            ),
            (b"i1", b"x=1\n"),
            (b"i3", b""),
        ],
    },
    // an empty value leaves its space
    Row {
        words: &[b"a b", b"c"],
        outs: &[b"p", b"q"],
        params: &[(b"d", b""), (b"d", b"x")],
        parts: &[],
        job_outs: &[b"warnings", b"out.p", b"out.q"],
        job_files: &[(
            b"call",
            b"odin 1\ntool cc 1.2\nparam d \nparam d x\nout out.p\nout out.q\n",
        )],
    },
];

// A parameter with its value.
fn param(alloc: Global, name: &[u8], value: &[u8]) -> Result<ParamValue, Memory> {
    Ok(ParamValue {
        param: Bytes::from_slice(alloc, name)?,
        value: Bytes::from_slice(alloc, value)?,
    })
}

// The body of an input that is not absent.
fn body_in(alloc: Global, body: Option<&[u8]>) -> Result<Option<Body>, Memory> {
    match body {
        Some(body) => Ok(Some(body_of(alloc, body)?)),
        None => Ok(None),
    }
}

// An input with its slot, its label and its bytes.
fn part(alloc: Global, slot: u32, label: &[u8], body: Option<&[u8]>) -> Result<CallPart, Memory> {
    Ok(CallPart {
        slot,
        label: Bytes::from_slice(alloc, label)?,
        body: body_in(alloc, body)?,
    })
}

// Adds the parameters of a row to a list.
fn put_params(
    alloc: Global,
    params: &mut Seq<ParamValue>,
    rows: &[(Text, Text)],
) -> Result<(), Memory> {
    for (name, value) in rows {
        params.push(param(alloc, name, value)?)?;
    }
    Ok(())
}

// Adds the inputs of a row to a list.
fn put_parts(
    alloc: Global,
    parts: &mut Seq<CallPart>,
    rows: &[(u32, Text, Option<Text>)],
) -> Result<(), Memory> {
    for (slot, label, body) in rows {
        parts.push(part(alloc, *slot, label, *body)?)?;
    }
    Ok(())
}

// Adds the parameters and the inputs of the row to the call.
fn put_inputs(alloc: Global, call: &mut Call, row: &Row) -> Result<(), Memory> {
    put_params(alloc, &mut call.params, row.params)?;
    put_parts(alloc, &mut call.parts, row.parts)
}

// The job of the row's call.
fn job_in(alloc: Global, row: &Row) -> Result<Job, Memory> {
    let mut call = call_of(alloc, row.words, row.outs)?;
    put_inputs(alloc, &mut call, row)?;
    job_of(alloc, &call)
}

// Whether the job has the words, the outputs and the files of the row.
fn is_wanted(job: &Job, row: &Row) -> bool {
    are_texts(job.words.as_slice(), row.words)
        && are_texts(job.outs.as_slice(), row.job_outs)
        && are_files(job.files.as_slice(), row.job_files)
}

#[test]
fn a_job_has_the_inputs_of_its_call(rt: HostRuntime) -> Result<(), Fail> {
    for row in JOBS {
        let job = job_in(rt.alloc(), row)?;
        assert!(rt; is_wanted(&job, row));
    }
    Ok(())
}
