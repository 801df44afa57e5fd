//! The real objects of the outside: standard streams, the files of the current folder as a tree, one file as a disk, and child programs, each in a folder
//! of its own. What the system tells of them is what these give.
#![tactic(auto)]

mod closed;
mod contents;
mod disk;
mod fault;
mod homes;
mod host;
mod lock;
mod mark;
mod named;
mod opening;
mod program;
mod raw;
mod raw_files;
mod read;
mod session;
mod slots;
mod standing;
mod streams;
mod sweep;
mod system;
mod system_files;
mod tools;
mod tree;
mod waits;
mod work;

pub use closed::ClosedStreams;
pub use disk::FileDisk;
pub use fault::SystemFault;
pub use host::HostSystem;
pub use lock::LockFault;
pub use mark::FolderMark;
pub use named::NamedFile;
pub use raw::RawFile;
pub use raw_files::RawFiles;
pub use read::{read_file, read_front, read_output, read_raw, text_of};
pub use streams::{InputSource, OutputSink};
pub use system::System;
pub use system_files::Outputs;
pub use tools::ChildTools;
pub use tree::FolderTree;
pub use work::Work;
