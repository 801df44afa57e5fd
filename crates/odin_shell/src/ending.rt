// How a run ends.
ghost use Rattle.std.specs.Prelude.{◌≡◌};
ghost use Rattle.odin_shell.specs.Endings.{ending_status};

/// How a run ends. Each way has one status.
#[derive(Clone, Copy)]
pub enum Ending {
    Whole,
    CutShort,
    BadGraph,
    Disk,
    Memory,
    Output,
    Input,
    /// The offset at which the file is not a store's.
    NotOurs(u64),
    /// Where the records of the file end, and the length of the batch that doesn't fit after them.
    Full(u64, u64),
    Usage,
    TooLong,
    /// A load session was served.
    Loaded,
    /// A load session passed the room of its own disk.
    Room,
}

impl Ending {
    /// The exit status, from 0 to 10.
    pub fn status(self) -> u8
        ensures { result ≡ ending_status self }
    {
        match self {
            Ending::Whole => 0,
            Ending::CutShort => 1,
            Ending::BadGraph => 2,
            Ending::Disk => 3,
            Ending::Memory => 4,
            Ending::Output => 5,
            Ending::Input => 6,
            Ending::NotOurs(_) => 7,
            Ending::Full(_, _) => 8,
            Ending::Usage => 9,
            Ending::TooLong => 10,
            Ending::Loaded => 0,
            Ending::Room => 3,
        }
    }
}
