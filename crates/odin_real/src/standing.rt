// How a disk stands to its file.

/// How a disk stands to its file: none is there yet; it is open, and its lock is ours; another has the lock; or it was given up.
#[derive(Clone, Copy, PartialEq, Eq)]
pub enum Standing {
    Absent,
    Open,
    InUse,
    Lost,
}
