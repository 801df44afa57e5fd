// The folder in which a build keeps what it knows.
use crate::faults::Fault;
use crate::reading::refused;
use crate::screen::output_fault;
use crate::told::Line;
use object_values::{Bytes, Memory};
use std::alloc::Global;
use std::fs;
use std::io::ErrorKind;
use std::os::unix::fs::MetadataExt;

/// The folder in which a build keeps what it knows.
pub(crate) const STATE: &str = ".odin";

/// What the system tells of this process, which belongs to whom it works for.
const SELF: &str = "/proc/self";

fn no_folder_line(alloc: Global) -> Result<Bytes, Memory> {
    Line::new(alloc)?.text(".odin isn't a folder")?.end()
}

/// Looks at the folder that stands there: its files are taken as true, so it has to be of whom the build works for.
fn look_at_state(rt: &HostRuntime) -> Result<(), Fault> {
    let alloc = rt.alloc();
    let found = match fs::metadata(rt, STATE) {
        Ok(found) => found,
        Err(error) => return Err(output_fault(alloc, STATE, &error)),
    };
    if !found.is_dir() {
        return Err(refused(no_folder_line(alloc)));
    }
    match fs::metadata(rt, SELF) {
        Ok(own) if own.uid() != found.uid() => Err(Fault::NotOwn),
        // Where the system doesn't tell of processes nobody can say whose it is.
        Ok(_) | Err(_) => Ok(()),
    }
}

/// Makes the folder in which a build keeps what it knows.
pub(crate) fn make_state(rt: &HostRuntime) -> Result<(), Fault> {
    match fs::create_dir(rt, STATE) {
        Ok(()) => Ok(()),
        Err(error) => match error.kind() {
            ErrorKind::AlreadyExists => look_at_state(rt),
            _ => Err(output_fault(rt.alloc(), STATE, &error)),
        },
    }
}
