// The numbers of standard streams that are closed.
use std::fs::{self, File};
use std::rt::Files;

/// Files that stand in the place of standard streams which were closed when the program was started, for as long as this value is there. The system
/// gives a file that is opened the least number that is free: without these the next one, as the file of a store, would be read and written as such a
/// stream. Reading and writing them fails, as it does where a stream is closed. To be made before any other file is opened.
#[derive(Drop)]
pub struct ClosedStreams {
    places: [Option<File>; 3],
}

impl ClosedStreams {
    /// Opens the root folder once for each of the three standard streams: a folder can be opened, and neither read nor written as a file. Where a stream
    /// is not closed, that takes a number after the streams, and does nothing. No clause says so, since the system tells nothing of numbers.
    pub fn hold<R: Files<File = File>>(rt: &R) -> Self {
        ClosedStreams {
            places: [
                fs::open(rt, "/").ok(),
                fs::open(rt, "/").ok(),
                fs::open(rt, "/").ok(),
            ],
        }
    }
}
