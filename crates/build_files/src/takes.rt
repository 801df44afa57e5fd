// A run of the program.
ghost use Rattle.std.specs.Prelude.{◌≡◌, ◌≤◌, true, false, IfOk};
ghost use Rattle.build_files.specs.TakeFaults as meaning;

use crate::causes::Cause;
use crate::listed::{listed, write_takes};
use crate::paths::tidy;
use crate::walk::{Found, take_below};
use object_values::{Bytes, Memory};
use std::alloc::Global;
use std::env::Env;
use std::io::Write;
use std::{env, io};
use thiserror::Error;

/// Why a run ended with nothing printed.
#[derive(Debug, Drop, Error)]
pub enum Fault {
    #[error("odin_takes: cannot read {0}")]
    Input(Cause),
    #[error("odin_takes: cannot write {0}")]
    Output(Cause),
    #[error("odin_takes: out of memory")]
    Memory,
    #[error("usage: odin_takes FOLDER..")]
    Words,
}

impl From<Memory> for Fault {
    fn from(_: Memory) -> Self {
        Fault::Memory
    }
}

/// The fault of a look at a folder, or at what stands in it.
pub(crate) fn input_fault(alloc: Global, place: &str, error: &io::Error) -> Fault {
    match Cause::at(alloc, place, error) {
        Ok(cause) => Fault::Input(cause),
        Err(Memory) => Fault::Memory,
    }
}

fn output_fault(alloc: Global, error: &io::Error) -> Fault {
    match Cause::at(alloc, "standard output", error) {
        Ok(cause) => Fault::Output(cause),
        Err(Memory) => Fault::Memory,
    }
}

impl Fault {
    pub fn status(&self) -> u8
        ensures { result ≡ meaning.takes_fault_status self.now }
    {
        match self {
            Fault::Input(_) | Fault::Output(_) => 3,
            Fault::Memory => 4,
            Fault::Words => 9,
        }
    }
}

/// The exit status of a run whose lines were printed.
fn status_of(odd: bool, missing: bool) -> u8
    ensures missing { missing ≡ true → result ≡ 2 }
    ensures odd { missing ≡ false → odd ≡ true → result ≡ 1 }
    ensures fine { missing ≡ false → odd ≡ false → result ≡ 0 }
    ensures few { result ≤ 2 }
{
    if missing {
        2
    } else if odd {
        1
    } else {
        0
    }
}

/// The words after the program's name. Words that are no text are not accepted.
fn words_of<R: Env + AllocGlobal>(rt: &R) -> Result<Vec<String>, Fault> {
    let mut words = Vec::new(rt.alloc());
    let Ok(args) = env::args(rt) else {
        return Err(Fault::Words);
    };
    for word in args.skip(1) {
        words.push(word).map_err(|_| Fault::Memory)?;
    }
    Ok(words)
}

/// What stands below the folders of the words, or below the current one.
fn find(rt: &HostRuntime, words: &[String]) -> Result<Found, Fault> {
    let mut found = Found {
        names: Vec::new(rt.alloc()),
        odd: false,
        missing: false,
    };
    for word in words {
        take_below(rt, tidy(rt.alloc(), word.as_bytes())?, &mut found)?;
    }
    if words.is_empty() {
        take_below(rt, Bytes::new(rt.alloc()), &mut found)?;
    }
    Ok(found)
}

fn print(rt: &HostRuntime, lines: &[u8]) -> Result<(), Fault> {
    let mut out = io::writer(rt);
    match out.write_all(lines).and_then(|()| out.flush()) {
        Ok(()) => Ok(()),
        Err(error) => Err(output_fault(rt.alloc(), &error)),
    }
}

/// The exit status of a run with the words of the program. What it printed is no clause, since the system tells neither its words nor what stands in its
/// folders.
pub fn run(rt: &HostRuntime) -> Result<u8, Fault>
    ensures { IfOk result (λ status. status ≤ 2) }
{
    let words = words_of(rt)?;
    let found = find(rt, words.as_slice())?;
    let status = status_of(found.odd, found.missing);
    let names = listed(found.into_names())?;
    let mut lines = Bytes::new(rt.alloc());
    write_takes(names.as_slice(), &mut lines)?;
    print(rt, lines.as_slice())?;
    Ok(status)
}
