// The load session, and the lines that tell it.
ghost use Rattle.std.specs.Prelude.{◌≡◌, ◌≤◌, ◌++◌, OnOk, IfOk};
ghost use Rattle.meaning_texts.specs.Limits.{unit_limit};
ghost use Rattle.odin_shell.specs.Loading.{spaced, counts_line, load_lines};
ghost use Rattle.odin_shell.specs.Objects.{sink_of};
ghost use Rattle.odin_journal.specs.Faults.{FileIsOurs};
ghost use Rattle.odin_shell.specs.Run.{SaysLastLine, ClosesLoad, LoadEnds};

use crate::ending::Ending;
use crate::entry::{close, end_with};
use load_session::{Loaded, serve_load};
use object_values::{Bytes, Memory};
use odin_bytes::write_number;
use odin_engine::StoreFault;
use odin_outside::Sink;
use std::alloc::Global;

// ---- lines

fn write_numbers(numbers: &[u64], out: &mut Bytes) -> Result<(), Memory>
    ensures { OnOk result (out.new ≡ out.old ++ spaced numbers.now) }
{
    for number in numbers {
        out.push(b' ')?;
        write_number(*number, out)?;
    }
    Ok(())
}

// A line of a word and numbers, at the end.
fn write_counts(word: &[u8], numbers: &[u64], out: &mut Bytes) -> Result<(), Memory>
    ensures { OnOk result (out.new ≡ out.old ++ counts_line word.now numbers.now) }
{
    out.extend_from_slice(word)?;
    write_numbers(numbers, out)?;
    out.push(b'\n')
}

// The lines of a load session that was served.
fn load_lines(alloc: Global, units: u32, loaded: Loaded) -> Result<Bytes, Memory>
    ensures { IfOk result (λ text. text ≡ load_lines units loaded) }
{
    let mut text = Bytes::new(alloc);
    write_counts(b"load", &[u64::from(units)], &mut text)?;
    write_counts(b"starts", &loaded.starts, &mut text)?;
    write_counts(b"length", &[loaded.length], &mut text)?;
    write_counts(b"kept", &[loaded.kept], &mut text)?;
    Ok(text)
}

// ---- the session

// Writes the lines of a load session that was served.
fn tell<O: Sink>(alloc: Global, output: &mut O, units: u32, loaded: Loaded) -> Ending
    ensures { let sink = sink_of O.Sink in
        SaysLastLine (load_lines units loaded) Ending.Loaded (sink output.old)
        (sink output.new) result }
{
    match load_lines(alloc, units, loaded) {
        Ok(lines) => end_with(output, lines.as_slice(), Ending::Loaded),
        Err(_) => Ending::Memory,
    }
}

// Ends a load session that failed.
fn end_failed<O: Sink>(alloc: Global, output: &mut O, fault: StoreFault) -> Ending
    requires { FileIsOurs fault }
    ensures { let sink = sink_of O.Sink in
        ClosesLoad fault (sink output.old) (sink output.new) result }
{
    match fault {
        StoreFault::Disk => Ending::Room,
        StoreFault::Full(at, size) => close(alloc, output, Ending::Full(at, size)),
        StoreFault::Memory => Ending::Memory,
        // The disk of a load is empty at its opening.
        StoreFault::NotOurs(_) => unreachable!(),
    }
}

/// Serves the load session of so many units, over a disk and tools of its own, and writes its lines.
pub(crate) fn run_load<O: Sink>(alloc: Global, output: &mut O, units: u32) -> Ending
    requires some { 1 ≤ units }
    requires few { units ≤ unit_limit }
    ensures { let sink = sink_of O.Sink in
        LoadEnds units (sink output.old) (sink output.new) result }
{
    match serve_load(alloc, units) {
        Ok(loaded) => tell(alloc, output, units, loaded),
        Err(fault) => end_failed(alloc, output, fault),
    }
}
