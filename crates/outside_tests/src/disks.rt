// What stops leave on disks.
use object_values::{Bytes, Memory};
use odin_fakes::CrashDisk;
use std::alloc::Global;

// What a stop within a call may leave, where there was that call.
pub(super) fn crashed(
    alloc: Global,
    disk: &CrashDisk,
    moment: u32,
    choice: u64,
) -> Result<Bytes, Memory> {
    if disk.calls() < moment as usize {
        return Err(Memory);
    }
    disk.crash(alloc, moment, choice)
}
