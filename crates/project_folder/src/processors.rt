// How many tools run at once where no word says it.
ghost use Rattle.std.specs.Prelude.{◌≡◌, ◌≤◌};

use odin_bytes::{cut_at, read_number};

/// How many tools may run at once, at most.
pub const MOST_JOBS: u32 = 64;

/// How many processors a range of them has, as `0-3` or `5`.
fn count_in(range: &[u8]) -> u64 {
    let Some((first, last)) = cut_at(b'-', range) else {
        return 1;
    };
    match (read_number(first), read_number(last)) {
        (Some(first), Some(last)) => last.saturating_sub(first).saturating_add(1),
        _ => 1,
    }
}

/// How many processors ranges have, which commas part.
fn count_among(ranges: &[u8]) -> u64 {
    let mut count = 0_u64;
    for range in ranges.split(|byte| *byte == b',') {
        count = count.saturating_add(count_in(range));
    }
    count
}

/// The ranges of processors on which a process may run, in what the system tells of its status.
fn allowed_in(status: &[u8]) -> Option<&[u8]> {
    for line in status.split(|byte| *byte == b'\n') {
        if let Some(ranges) = line.strip_prefix(b"Cpus_allowed_list:\t") {
            return Some(ranges);
        }
    }
    None
}

/// How many tools run at once: one for each processor that the process may run on, in what the system tells of its status, from 1 to 64.
pub fn jobs_by(status: &[u8]) -> u32
    ensures some { 1 ≤ result }
    ensures few { result ≤ 64 }
{
    let count = match allowed_in(status) {
        Some(ranges) => count_among(ranges),
        None => 1,
    };
    count.clamp(1, u64::from(MOST_JOBS)) as u32
}
