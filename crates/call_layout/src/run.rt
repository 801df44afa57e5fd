// A run of the program.
ghost use Rattle.std.specs.Prelude.{◌≡◌, ◌+◌, ◌∷◌, ◌++◌, ℕ, Some, pos, codes, map, IfOk};
ghost use Rattle.std.specs.Process.{command_program, command_args, exit_code, exit_signal};
ghost use Rattle.call_layout.specs.Layout.{has_label};

use crate::faults::{Fault, MEMORY, Told};
use crate::laying::{fault_of, lay_out};
use crate::layout::layout_of;
use crate::place::Here;
use crate::told::{CallTold, PartTold, read_call};
use crate::words::read_words;
use clap::Error;
use clap::error::ErrorKind;
use object_values::Bytes;
use std::alloc::Global;
use std::env::Env;
use std::io::{ErrorKind as IoErrorKind, Write};
use std::os::unix::process::ExitStatusExt;
use std::process::{Command, ExitStatus};
use std::{env, fs};

/// The words of the program. Words that are no text are not accepted.
fn words_of<R: Env + AllocGlobal>(rt: &R) -> Result<Vec<String>, Fault> {
    let mut words = Vec::new(rt.alloc());
    let Ok(args) = env::args(rt) else {
        return Err(Fault::Words);
    };
    for word in args {
        words.push(word).map_err(|_| Fault::Memory)?;
    }
    Ok(words)
}

/// Shows help or the version.
fn show(rt: &HostRuntime, error: &Error) -> Result<u8, Fault> {
    if error.kind() == ErrorKind::OutOfMemory {
        return Err(Fault::Memory);
    }
    if error.use_stderr() {
        return Err(Fault::Words);
    }
    match error.print(rt) {
        Ok(()) => Ok(0),
        Err(cause) => Err(fault_of(rt.alloc(), b"standard output", &cause)),
    }
}

/// What the file `call` tells.
fn read_told(rt: &HostRuntime) -> Result<CallTold, Fault> {
    match fs::read(rt, "call") {
        Ok(text) => match read_call(rt.alloc(), text.as_slice())? {
            Some(told) => Ok(told),
            None => Err(Fault::UnknownCall),
        },
        Err(error) => {
            if error.kind() == IoErrorKind::NotFound {
                return Err(Fault::NoCall);
            }
            Err(fault_of(rt.alloc(), b"call", &error))
        }
    }
}

/// Whether a part that is there has the label of the script.
fn has_script(parts: &[PartTold], script: &str) -> bool
    ensures { result ≡ has_label parts.now script.now }
{
    parts.iter().any(|part| part.is_there && part.label.as_slice() == script.as_bytes())
}

/// The command that runs a script of the current folder by `sh`.
fn script_command(alloc: Global, script: &str, words: &[&str]) -> Result<Command, Fault>
    ensures program { IfOk result (λ command. command_program command ≡ codes "sh") }
    ensures words { IfOk result (λ command. command_args command ≡
        (codes "./" ++ script.now) ∷ map (λ word. word.now) words.now) }
{
    let path = format!(in alloc; "./{script}").map_err(|_| Fault::Memory)?;
    let mut command = Command::new(alloc, "sh").map_err(|_| Fault::Memory)?;
    command.arg(path.as_str()).map_err(|_| Fault::Memory)?;
    for word in words {
        command.arg(*word).map_err(|_| Fault::Memory)?;
    }
    Ok(command)
}

/// The status that tells how a script ended: its own, or that of a signal as a shell has it.
fn status_of(status: ExitStatus) -> u8
    ensures code { (n : ℕ) → exit_code status ≡ Some (pos n) → result ≡ n }
    ensures signal { (n : ℕ) → exit_signal status ≡ Some (pos n) → result ≡ 128 + n }
{
    match status.code() {
        Some(code) => (code.cast_unsigned() % 256) as u8,
        None => match status.signal() {
            Some(signal) => (128 + signal.cast_unsigned() % 128) as u8,
            None => u8::MAX,
        },
    }
}

fn run_script(rt: &HostRuntime, script: &str, words: &[&str]) -> Result<u8, Fault> {
    let mut command = script_command(rt.alloc(), script, words)?;
    match command.status(rt) {
        Ok(status) => Ok(status_of(status)),
        Err(error) => Err(fault_of(rt.alloc(), b"sh", &error)),
    }
}

/// Lays the parts of the call out, and runs the script.
fn lay_and_run(rt: &HostRuntime, script: &str, words: &[&str]) -> Result<u8, Fault> {
    let alloc = rt.alloc();
    let told = read_told(rt)?;
    let placed = layout_of(alloc, told.parts.as_slice(), told.outs.as_slice())?;
    if !has_script(told.parts.as_slice(), script) {
        return Err(Fault::NoScript(Bytes::from_slice(alloc, script.as_bytes())?));
    }
    lay_out(&mut Here::new(rt), alloc, placed.as_slice())?;
    run_script(rt, script, words)
}

/// The exit status of a run with the words of the program, where there is no fault.
fn run_words(rt: &HostRuntime) -> Result<u8, Fault> {
    let words = words_of(rt)?;
    match read_words(rt.alloc(), words.as_slice()) {
        Ok(given) => match given.as_slice() {
            [script, others @ ..] => lay_and_run(rt, script, others),
            [] => Err(Fault::Words),
        },
        Err(error) => show(rt, &error),
    }
}

/// Tells a line on standard error.
fn say(rt: &HostRuntime, line: &[u8]) {
    let _ = rt.stderr().write_all(line);
}

/// Says by a file that the call has no outcome.
fn leave_no_outcome(rt: &HostRuntime) {
    let _ = fs::write(rt, "no-outcome", b"");
}

/// Tells a fault where its reader looks, and gives the status of the run.
fn end_by(rt: &HostRuntime, fault: &Fault) -> u8 {
    let Ok(line) = fault.line(rt.alloc()) else {
        leave_no_outcome(rt);
        say(rt, MEMORY);
        return Fault::Memory.status();
    };
    match fault.told() {
        Told::ToCall => {
            if fs::write(rt, "warnings", line.as_slice()).is_err() {
                leave_no_outcome(rt);
                say(rt, line.as_slice());
            }
        }
        Told::ToSystem => {
            leave_no_outcome(rt);
            say(rt, line.as_slice());
        }
        Told::ToCaller => say(rt, line.as_slice()),
    }
    fault.status()
}

/// The exit status of a run with the words of the program. What it is, and what stands in the folder then, is no clause, since the system tells neither
/// its words nor its files, nor how a script ends.
pub fn run(rt: &HostRuntime) -> u8 {
    match run_words(rt) {
        Ok(status) => status,
        Err(fault) => end_by(rt, &fault),
    }
}
