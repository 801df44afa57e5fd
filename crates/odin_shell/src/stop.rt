// Why serving stopped.
ghost use Rattle.std.specs.Prelude.{◌≡◌};
ghost use Rattle.odin_journal.specs.Faults.{FileIsOurs};
ghost use Rattle.odin_shell.specs.Endings.{ending_of, stop_of};

use crate::ending::Ending;
use object_values::Memory;
use odin_engine::StoreFault;
use odin_outside::Failed;

/// Why serving stopped.
#[derive(Clone, Copy)]
pub(crate) enum Stop {
    Disk,
    Memory,
    Output,
    /// Where the records of the file end, and the length of the batch that doesn't fit after them.
    Full(u64, u64),
    /// The command ends the run.
    Quit,
}

impl Stop {
    // Why serving stops where the store failed.
    pub(crate) fn of_store(fault: StoreFault) -> Self
        requires { FileIsOurs fault }
        ensures { result ≡ stop_of fault }
    {
        match fault {
            StoreFault::Disk => Stop::Disk,
            // Only an opening finds a file that isn't a store's.
            StoreFault::NotOurs(_) => unreachable!(),
            StoreFault::Full(at, size) => Stop::Full(at, size),
            StoreFault::Memory => Stop::Memory,
        }
    }

    pub(crate) fn ending(self) -> Ending
        ensures { result ≡ ending_of self }
    {
        match self {
            Stop::Disk => Ending::Disk,
            Stop::Memory => Ending::Memory,
            Stop::Output => Ending::Output,
            Stop::Full(at, size) => Ending::Full(at, size),
            Stop::Quit => Ending::Whole,
        }
    }
}

impl From<Memory> for Stop {
    ghost use Rattle.odin_shell.specs.declared.stop.Stop.TheVariants.{Memory};

    ghost from_gives = { λ _ stop. stop ≡ Memory };

    fn from(_: Memory) -> Self {
        Stop::Memory
    }
}

impl From<Failed> for Stop {
    ghost use Rattle.odin_shell.specs.declared.stop.Stop.TheVariants.{Output};

    ghost from_gives = { λ _ stop. stop ≡ Output };

    fn from(_: Failed) -> Self {
        Stop::Output
    }
}
