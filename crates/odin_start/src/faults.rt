// What the program says of its exit status.
ghost use Rattle.std.specs.Prelude.{◌≡◌, ◌≢◌, None};
ghost use Rattle.odin_shell.specs.declared.ending.Ending.{Ending as EndingValue};
ghost use Rattle.odin_shell.specs.Endings.{ending_status};
ghost use Rattle.odin_start.specs.Lines.{in_use_line, line_of};

use thiserror::Error;

/// The exit status for want of memory.
pub const MEMORY: u8 = 4;

// The exit status for a fault of the disk.
const DISK: u8 = 3;

/// Why a run ended early, where standard error tells it.
#[derive(Debug, Drop, Error)]
pub enum Fault {
    #[error("odin: input ended inside a put")]
    CutShort,
    #[error("odin: disk fault")]
    Disk,
    #[error("odin: odin.store is in use")]
    InUse,
    #[error("odin: out of memory")]
    Memory,
    #[error("odin: output fault")]
    Output,
    #[error("odin: read fault")]
    Input,
    #[error("odin: input too long")]
    TooLong,
}

/// The fault that an exit status stands for, where standard error tells one: 2, 7, 8 and 9 have written a line of their own.
pub fn fault_of(status: u8) -> Option<Fault>
    ensures ends { (ending : EndingValue) → status ≡ ending_status ending
        → result ≡ line_of ending }
    ensures none { status ≢ 1 → status ≢ 3 → status ≢ 4 → status ≢ 5 → status ≢ 6 → status ≢ 10
        → result ≡ None }
{
    match status {
        1 => Some(Fault::CutShort),
        DISK => Some(Fault::Disk),
        MEMORY => Some(Fault::Memory),
        5 => Some(Fault::Output),
        6 => Some(Fault::Input),
        10 => Some(Fault::TooLong),
        _ => None,
    }
}

/// The cause that is told before the fault of the status: another session has the store. It is told where that ended the run, and at no other status.
pub fn cause_of(status: u8, in_use: bool) -> Option<Fault>
    ensures { result ≡ in_use_line status in_use }
{
    if status == DISK && in_use {
        Some(Fault::InUse)
    } else {
        None
    }
}
