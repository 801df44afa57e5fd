// The toy tools.
ghost use Rattle.std.specs.Prelude.{◌≡◌, IfOk};
ghost use Rattle.odin_memory.specs.Toys as meaning;

use crate::compile::{compile_files, put_debug};
use crate::directives::{directive, end_of, leaves_output};
use crate::link::put_linked;
use crate::raws::{put_output, without_output};
use crate::scan::put_scanned;
use object_values::{Bytes, End, Job, Memory, Raw, Seq};
use std::alloc::Global;

fn scan(alloc: Global, job: &Job) -> Result<Raw, Memory>
    ensures { IfOk result (λ raw. raw ≡ meaning.scan_raw job.now) }
{
    let mut output = Bytes::new(alloc);
    put_scanned(job.files.as_slice(), &mut output)?;
    let mut raw = without_output(alloc, End::Exit(0), Bytes::new(alloc))?;
    put_output(alloc, job, output, &mut raw)?;
    Ok(raw)
}

fn ld(alloc: Global, job: &Job) -> Result<Raw, Memory>
    ensures { IfOk result (λ raw. raw ≡ meaning.ld_raw job.now) }
{
    let mut output = Bytes::new(alloc);
    put_linked(job.files.as_slice(), &mut output)?;
    let mut raw = without_output(alloc, End::Exit(0), Bytes::new(alloc))?;
    put_output(alloc, job, output, &mut raw)?;
    Ok(raw)
}

fn cc(alloc: Global, job: &Job) -> Result<Raw, Memory>
    ensures { IfOk result (λ raw. raw ≡ meaning.cc_raw job.now) }
{
    let files = job.files.as_slice();
    let mut object = Bytes::new(alloc);
    let mut warnings = Bytes::new(alloc);
    put_debug(files, &mut object)?;
    compile_files(files, &mut object, &mut warnings)?;
    let line = directive(files);
    let mut raw = without_output(alloc, end_of(line), warnings)?;
    if leaves_output(line) {
        put_output(alloc, job, object, &mut raw)?;
    }
    Ok(raw)
}

fn unknown(alloc: Global) -> Raw
    ensures { result ≡ meaning.unknown }
{
    Raw {
        end: End::Exit(127),
        files: Seq::new(alloc),
    }
}

/// What the tool that the first word names leaves of the job.
#[tactic(auto, unfolding(crate::specs::Toys::toy_raw))]
pub fn toy(alloc: Global, job: &Job) -> Result<Raw, Memory>
    ensures { IfOk result (λ raw. raw ≡ meaning.toy_raw job.now) }
{
    let Some(word) = job.words.as_slice().first() else {
        return Ok(unknown(alloc));
    };
    match word.as_slice() {
        b"scan" => scan(alloc, job),
        b"cc" => cc(alloc, job),
        b"ld" => ld(alloc, job),
        _ => Ok(unknown(alloc)),
    }
}
