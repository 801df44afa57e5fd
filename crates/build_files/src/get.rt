// A run of the program: what it reads, and what it writes.
ghost use Rattle.std.specs.Prelude.{◌≡◌, ◌≤◌, IfOk, IsOk};
ghost use Rattle.meaning_commands.specs.Formed.{IsFormedBody, IsFormed};
ghost use Rattle.build_files.specs.declared.files.Files.TheVariants.{Nothing};
ghost use Rattle.build_files.specs.GetFaults as faults;

use crate::answers::{exit_status, last_answer};
use crate::causes::Cause;
use crate::files::{Files, files_of};
use crate::messages::lines_of;
use crate::whole::write_whole;
use crate::words::{Asked, read_words};
use object_values::{Bytes, Memory, Message, Part};
use odin_commands::{Reply, ShownBody, read_replies};
use std::alloc::Global;
use std::env::Env;
use std::io::{Read, Write};
use std::{env, fs, io};
use thiserror::Error;

/// Why a run ended without an answer.
#[derive(Debug, Drop, Error)]
pub enum Fault {
    #[error("odin_get: no replies on the input")]
    Replies,
    #[error("odin_get: cannot read {0}")]
    Input(Cause),
    #[error("odin_get: cannot write {0}")]
    Output(Cause),
    #[error("odin_get: out of memory")]
    Memory,
    #[error("usage: odin_get [-o FILE] [-m] [-l]")]
    Words,
}

impl From<Memory> for Fault {
    fn from(_: Memory) -> Self {
        Fault::Memory
    }
}

impl Fault {
    pub fn status(&self) -> u8
        ensures { result ≡ faults.get_fault_status self.now }
    {
        match self {
            Fault::Replies => 2,
            Fault::Input(_) | Fault::Output(_) => 3,
            Fault::Memory => 4,
            Fault::Words => 9,
        }
    }
}

fn input_fault(alloc: Global, error: &io::Error) -> Fault {
    match Cause::at(alloc, "standard input", error) {
        Ok(cause) => Fault::Input(cause),
        Err(Memory) => Fault::Memory,
    }
}

fn output_fault(alloc: Global, place: &str, error: &io::Error) -> Fault {
    match Cause::at(alloc, place, error) {
        Ok(cause) => Fault::Output(cause),
        Err(Memory) => Fault::Memory,
    }
}

/// The words of the program. Words that are no text are not accepted.
fn words_of<R: Env + AllocGlobal>(rt: &R) -> Result<Vec<String>, Fault> {
    let mut words = Vec::new(rt.alloc());
    let Ok(args) = env::args(rt) else {
        return Err(Fault::Words);
    };
    for word in args {
        words.push(word).map_err(|_| Fault::Memory)?;
    }
    Ok(words)
}

/// All of the input.
fn read_input(rt: &HostRuntime) -> Result<Bytes, Fault> {
    let mut text = Vec::new(rt.alloc());
    match rt.reader().read_to_end(&mut text) {
        Ok(_) => Ok(Bytes::from_vec(text)),
        Err(error) => Err(input_fault(rt.alloc(), &error)),
    }
}

fn write_file(rt: &HostRuntime, path: &str, body: &[u8]) -> Result<(), Fault> {
    match write_whole(rt, path, body) {
        Ok(()) => Ok(()),
        Err(error) => Err(output_fault(rt.alloc(), path, &error)),
    }
}

/// Writes a file of a folder.
fn write_part(rt: &HostRuntime, folder: &str, part: &Part) -> Result<(), Fault> {
    let Ok(name) = std::str::from_utf8(part.name.as_slice()) else {
        let error = io::Error::from(io::ErrorKind::InvalidFilename);
        return Err(output_fault(rt.alloc(), folder, &error));
    };
    let path = format!(in rt.alloc(); "{folder}/{name}").map_err(|_| Fault::Memory)?;
    write_file(rt, path.as_str(), part.body.as_slice())
}

fn make_folder(rt: &HostRuntime, path: &str) -> Result<(), Fault> {
    match fs::create_dir_all(rt, path) {
        Ok(()) => Ok(()),
        Err(error) => Err(output_fault(rt.alloc(), path, &error)),
    }
}

/// Writes the files below a path, each whole. What the files have then is no clause, since the system doesn't tell it.
pub fn write_files(rt: &HostRuntime, path: &str, files: &Files) -> Result<(), Fault>
    ensures { files.now ≡ Nothing → IsOk result }
{
    match files {
        Files::Nothing => {}
        Files::File(text) => write_file(rt, path, text.as_slice())?,
        Files::Folder(parts) => {
            make_folder(rt, path)?;
            for part in parts.as_slice() {
                write_part(rt, path, part)?;
            }
        }
    }
    Ok(())
}

/// Writes the files to a stream, one after another.
fn print_each<W: Write>(out: &mut W, files: &Files) -> io::Result<()> {
    match files {
        Files::Nothing => {}
        Files::File(text) => out.write_all(text.as_slice())?,
        Files::Folder(parts) => {
            for part in parts.as_slice() {
                out.write_all(part.body.as_slice())?;
            }
        }
    }
    out.flush()
}

fn print_files(rt: &HostRuntime, files: &Files) -> Result<(), Fault> {
    match print_each(&mut io::writer(rt), files) {
        Ok(()) => Ok(()),
        Err(error) => Err(output_fault(rt.alloc(), "standard output", &error)),
    }
}

/// Shows the messages on standard error.
fn show_messages(rt: &HostRuntime, messages: &[Message], labelled: bool) -> Result<(), Fault> {
    let text = lines_of(rt.alloc(), messages, labelled)?;
    match rt.stderr().write_all(text.as_slice()) {
        Ok(()) => Ok(()),
        Err(error) => Err(output_fault(rt.alloc(), "standard error", &error)),
    }
}

/// Writes what an object is shown with.
fn write_object(
    rt: &HostRuntime,
    asked: Asked<'_>,
    body: &ShownBody,
    messages: &[Message],
) -> Result<(), Fault>
    requires { IsFormedBody body.now }
{
    let files = files_of(rt.alloc(), body)?;
    match asked.file {
        Some(path) => write_files(rt, path, &files)?,
        None => print_files(rt, &files)?,
    }
    if asked.messages {
        show_messages(rt, messages, asked.labels)?;
    }
    Ok(())
}

/// Writes an object that was asked for. Of a refusal nothing is written.
fn write_answer(rt: &HostRuntime, asked: Asked<'_>, reply: &Reply) -> Result<(), Fault>
    requires { IsFormed reply.now }
{
    match reply {
        Reply::Shown { body, messages, .. } => write_object(rt, asked, body, messages.as_slice()),
        _ => Ok(()),
    }
}

/// The exit status of a run with the words of the program. Which object it is of is no clause, since the system tells neither its words nor its input.
#[tactic(auto, using(crate::proofs::AnswerLemmas::small_status))]
pub fn run(rt: &HostRuntime) -> Result<u8, Fault>
    ensures { IfOk result (λ status. status ≤ 2) }
{
    let words = words_of(rt)?;
    let Some(asked) = read_words(rt.alloc(), words.as_slice())? else {
        return Err(Fault::Words);
    };
    let text = read_input(rt)?;
    let Some(replies) = read_replies(rt.alloc(), text.as_slice())? else {
        return Err(Fault::Replies);
    };
    let answer = last_answer(replies.as_slice());
    if let Some(reply) = answer {
        write_answer(rt, asked, reply)?;
    }
    Ok(exit_status(answer))
}
