// Why a run ends without the script's status, and how that is told.
ghost use Rattle.std.specs.Prelude.{◌≡◌, ◌++◌, codes, OnOk, IfOk};
ghost use Rattle.call_layout.specs.Faults as meaning;

use crate::layout::LayoutFault;
use object_values::{Bytes, Memory};
use odin_bytes::escape;
use std::alloc::Global;

/// Why a run ends without the script's status.
pub enum Fault {
    /// The parts can't be laid out.
    Layout(LayoutFault),
    /// Two parts with this label have other bytes.
    Differs(Bytes),
    /// No part that is there has the label of the script.
    NoScript(Bytes),
    /// There is no file `call`.
    NoCall,
    /// The file `call` is none that this program knows.
    UnknownCall,
    /// Reading, writing or starting failed, at this place and for this cause.
    System { place: Bytes, cause: Bytes },
    Memory,
    /// The words of the program are others.
    Words,
}

// By hand: a drop is one call, where a derived one is opened field by field at each early return.
impl Drop for Fault {
    fn drop(self) {
        match self {
            Fault::Layout(fault) => drop(fault),
            Fault::Differs(label) | Fault::NoScript(label) => drop(label),
            Fault::System { place, cause } => {
                drop(place);
                drop(cause);
            }
            Fault::NoCall | Fault::UnknownCall | Fault::Memory | Fault::Words => {}
        }
    }
}

impl From<Memory> for Fault {
    ghost use Rattle.std.specs.Prelude.{◌≡◌};
    ghost use Rattle.call_layout.specs.declared.faults.Fault.TheVariants as fault;

    ghost from_gives = { λ _ given. given ≡ fault.Memory };

    fn from(_: Memory) -> Self {
        Fault::Memory
    }
}

impl From<LayoutFault> for Fault {
    ghost use Rattle.std.specs.Prelude.{◌≡◌};
    ghost use Rattle.call_layout.specs.Faults.{of_layout};

    ghost from_gives = { λ given fault. fault ≡ of_layout given };

    fn from(fault: LayoutFault) -> Self {
        if matches!(&fault, LayoutFault::Memory) {
            return Fault::Memory;
        }
        Fault::Layout(fault)
    }
}

/// Who has to do something about a fault, and so what a run leaves behind.
#[derive(Clone, Copy, PartialEq, Eq)]
pub enum Told {
    /// It follows from the call, so it is a message of its outcome.
    ToCall,
    /// The same call may go well another time, so it has no outcome.
    ToSystem,
    /// It isn't a call of odin that was run.
    ToCaller,
}

impl Fault {
    pub fn status(&self) -> u8
        ensures { result ≡ meaning.fault_status self.now }
    {
        match self {
            Fault::Layout(_) | Fault::Differs(_) | Fault::NoScript(_) => 2,
            Fault::UnknownCall | Fault::System { .. } => 3,
            Fault::Memory => 4,
            Fault::NoCall | Fault::Words => 9,
        }
    }

    pub fn told(&self) -> Told
        ensures { result ≡ meaning.told_to self.now }
    {
        match self {
            Fault::Layout(_) | Fault::Differs(_) | Fault::NoScript(_) => Told::ToCall,
            Fault::UnknownCall | Fault::System { .. } | Fault::Memory => Told::ToSystem,
            Fault::NoCall | Fault::Words => Told::ToCaller,
        }
    }

    /// The line that tells it.
    pub fn line(&self, alloc: Global) -> Result<Bytes, Memory>
        ensures { IfOk result (λ line. line ≡ meaning.fault_line self.now) }
    {
        let mut line = Bytes::new(alloc);
        match self {
            Fault::Layout(fault) => put_layout(fault, &mut line)?,
            Fault::Differs(label) => {
                put_label(label.as_slice(), b"two parts with other bytes", &mut line)?;
            }
            Fault::NoScript(label) => {
                put_label(
                    label.as_slice(),
                    b"no part of the call is this script",
                    &mut line,
                )?;
            }
            Fault::System { place, cause } => {
                put_label(place.as_slice(), cause.as_slice(), &mut line)?;
            }
            Fault::NoCall => line.extend_from_slice(NO_CALL)?,
            Fault::UnknownCall => line.extend_from_slice(UNKNOWN)?,
            Fault::Memory => line.extend_from_slice(MEMORY)?,
            Fault::Words => line.extend_from_slice(USAGE)?,
        }
        Ok(line)
    }
}

/// The line of an end of memory, which takes none.
pub const MEMORY: &[u8] = b"odin_lay: out of memory\n";

const NO_CALL: &[u8] = b"odin_lay: there is no file call here: odin starts it, as a tool\n";

const UNKNOWN: &[u8] = b"odin_lay: the file call is none that this odin_lay knows\n";

const USAGE: &[u8] = b"usage: odin_lay SCRIPT [WORD]..\n";

/// Adds a line on what a label, or another place, has.
fn put_label(label: &[u8], what: &[u8], line: &mut Bytes) -> Result<(), Memory>
    ensures { OnOk result (line.new ≡ line.old ++ meaning.place_line label.now what.now) }
{
    line.extend_from_slice(b"odin_lay: ")?;
    escape(label, line)?;
    line.extend_from_slice(b": ")?;
    line.extend_from_slice(what)?;
    line.push(b'\n')
}

fn put_under(folder: &[u8], label: &[u8], line: &mut Bytes) -> Result<(), Memory>
    ensures { OnOk result (line.new ≡ line.old ++ meaning.under_line folder.now label.now) }
{
    line.extend_from_slice(b"odin_lay: ")?;
    escape(folder, line)?;
    line.extend_from_slice(b": a file, and a folder of ")?;
    escape(label, line)?;
    line.push(b'\n')
}

fn put_layout(fault: &LayoutFault, line: &mut Bytes) -> Result<(), Memory>
    ensures { OnOk result (line.new ≡ line.old ++ meaning.layout_line fault.now) }
{
    match fault {
        LayoutFault::Leads(label) => put_label(
            label.as_slice(),
            b"no path of a file below the folder of the call",
            line,
        ),
        LayoutFault::NoText(label) => put_label(label.as_slice(), b"no text", line),
        LayoutFault::Taken(label) => put_label(
            label.as_slice(),
            b"a name that odin has in the folder of a call",
            line,
        ),
        LayoutFault::Under { folder, label } => {
            put_under(folder.as_slice(), label.as_slice(), line)
        }
        LayoutFault::Memory => line.extend_from_slice(MEMORY),
    }
}
