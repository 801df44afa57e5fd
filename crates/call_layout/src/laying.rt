// The parts put at their labels.
ghost use Rattle.std.specs.Prelude.{◌≡◌, All, IfOk, OnOk, option_map, string_bytes};
ghost use Rattle.meaning_calls.specs.Jobs.{body_name};
ghost use Rattle.call_layout.specs.Places.{laid, with_placed, HasFirstBytes};

use crate::faults::Fault;
use crate::layout::Placed;
use crate::place::Place;
use object_values::{Bytes, Copied, Memory};
use std::alloc::Global;
use std::io::{Error, ErrorKind};

/// The name of the file of a part.
fn part_file(alloc: Global, number: u64) -> Result<String, Memory>
    ensures { IfOk result (λ name. string_bytes name ≡ body_name number) }
{
    format!(in alloc; "i{number}").map_err(|_| Memory)
}

/// The system's words for a cause, without the number that it has for it.
fn cause_of(alloc: Global, error: &Error) -> Result<Bytes, Memory> {
    let text = format!(in alloc; "{error}").map_err(|_| Memory)?;
    match text.split_once(" (os error ") {
        Some((cause, _)) => Bytes::from_slice(alloc, cause.as_bytes()),
        None => Bytes::from_slice(alloc, text.as_bytes()),
    }
}

/// The fault of a place.
pub fn fault_of(alloc: Global, place: &[u8], error: &Error) -> Fault {
    if error.kind() == ErrorKind::OutOfMemory {
        return Fault::Memory;
    }
    let Ok(cause) = cause_of(alloc, error) else {
        return Fault::Memory;
    };
    let Ok(place) = Bytes::from_slice(alloc, place) else {
        return Fault::Memory;
    };
    Fault::System { place, cause }
}

/// Sees that a part has the bytes of the first part with its label.
fn check_twin<P: Place>(place: &mut P, alloc: Global, placed: &Placed) -> Result<(), Fault>
    ensures ok { OnOk result (HasFirstBytes (P.files place.old) placed.now) }
    ensures kept { P.files place.new ≡ P.files place.old }
{
    if placed.first == placed.number {
        return Ok(());
    }
    let part = part_file(alloc, placed.number)?;
    let first = part_file(alloc, placed.first)?;
    match place.are_same(part.as_str(), first.as_str()) {
        Ok(true) => Ok(()),
        Ok(false) => Err(Fault::Differs(placed.label.copy(alloc)?)),
        Err(error) => Err(fault_of(alloc, part.as_bytes(), &error)),
    }
}

fn check_twins<P: Place>(place: &mut P, alloc: Global, placed: &[Placed]) -> Result<(), Fault>
    ensures ok { OnOk result (All (HasFirstBytes (P.files place.old)) placed.now) }
    ensures kept { P.files place.new ≡ P.files place.old }
{
    for part in placed {
        check_twin(place, alloc, part)?;
    }
    Ok(())
}

/// Puts a part at its label, where it is the first one with it.
fn put_part<P: Place>(place: &mut P, alloc: Global, placed: &Placed) -> Result<(), Fault>
    ensures { let put = option_map (λ files. with_placed files placed.now) in
        OnOk result (P.files place.new ≡ put (P.files place.old)) }
{
    if placed.first != placed.number {
        return Ok(());
    }
    let part = part_file(alloc, placed.number)?;
    let Ok(path) = std::str::from_utf8(placed.label.as_slice()) else {
        let error = Error::from(ErrorKind::InvalidFilename);
        return Err(fault_of(alloc, placed.label.as_slice(), &error));
    };
    match place.put(part.as_str(), path) {
        Ok(()) => Ok(()),
        Err(error) => Err(fault_of(alloc, placed.label.as_slice(), &error)),
    }
}

fn put_parts<P: Place>(place: &mut P, alloc: Global, placed: &[Placed]) -> Result<(), Fault>
    ensures { OnOk result (P.files place.new ≡ option_map (laid placed.now) (P.files place.old)) }
{
    for part in placed {
        put_part(place, alloc, part)?;
    }
    Ok(())
}

/// Puts the parts at their labels. Nothing is put where parts with one label have other bytes.
pub fn lay_out<P: Place>(place: &mut P, alloc: Global, placed: &[Placed]) -> Result<(), Fault>
    ensures same { OnOk result (All (HasFirstBytes (P.files place.old)) placed.now) }
    ensures laid { OnOk result
        (P.files place.new ≡ option_map (laid placed.now) (P.files place.old)) }
{
    check_twins(place, alloc, placed)?;
    put_parts(place, alloc, placed)
}
