// The job of a call.
ghost use Rattle.std.specs.Prelude.{◌≡◌, ◌++◌, ◌∷◌, [], map, OnOk, IfOk};
ghost use Rattle.meaning_calls.specs.Jobs as meaning;

use crate::call_file::call_text;
use crate::file_names::{WARNINGS, out_file, write_body_name};
use object_values::{Bytes, Call, CallPart, Copied, FileBody, Job, Memory, Seq, Text};
use std::alloc::Global;

// Adds the file of the part's body, if it has one. It shares the body.
fn put_body_file(
    alloc: Global,
    number: u64,
    part: &CallPart,
    files: &mut Seq<FileBody>,
) -> Result<(), Memory>
    ensures { OnOk result (files.new ≡ files.old ++ meaning.put_file number part.now.body []) }
{
    let Some(body) = &part.body else {
        return Ok(());
    };
    let mut name = Bytes::new(alloc);
    write_body_name(number, &mut name)?;
    files.push(FileBody {
        name,
        body: body.copy(alloc)?,
    })
}

fn put_body_files(
    alloc: Global,
    parts: &[CallPart],
    files: &mut Seq<FileBody>,
) -> Result<(), Memory>
    ensures { OnOk result (files.new ≡ files.old ++ meaning.body_files 1 parts.now) }
{
    for (place, part) in parts.iter().enumerate() {
        put_body_file(alloc, place as u64 + 1, part, files)?;
    }
    Ok(())
}

fn out_files(alloc: Global, names: &[Bytes]) -> Result<Seq<Bytes>, Memory>
    ensures { IfOk result (λ outs. outs ≡ meaning.warnings_file ∷ map meaning.out_file names.now) }
{
    let mut outs = Seq::new(alloc);
    outs.push(Bytes::from_slice(alloc, WARNINGS)?)?;
    for name in names {
        outs.push(out_file(alloc, name.as_slice())?)?;
    }
    Ok(outs)
}

/// What a tool is started with for a call.
#[tactic(auto, unfolding(meaning_calls::specs::Jobs::job_of))]
pub fn job_of(alloc: Global, call: &Call) -> Result<Job, Memory>
    ensures { IfOk result (λ job. job ≡ meaning.job_of call.now) }
{
    let mut files = Seq::new(alloc);
    files.push(FileBody {
        name: Bytes::from_slice(alloc, b"call")?,
        body: Text::of(call_text(alloc, call)?)?,
    })?;
    put_body_files(alloc, call.parts.as_slice(), &mut files)?;
    Ok(Job {
        words: call.words.copy(alloc)?,
        files,
        outs: out_files(alloc, call.outs.as_slice())?,
    })
}
