// The line and the column of a place in a text, from what stands before it.
ghost use Rattle.std.specs.Prelude.{◌≡◌, ◌≤◌, ◌+◌, length};
ghost use Rattle.meaning_graph.specs.Places.{line_behind, column_behind};

use memchr::{memchr_iter, memrchr};

/// The line of what stands after these bytes, from 1.
pub fn line_behind(front: &[u8]) -> usize
    ensures value { result ≡ line_behind front.now }
    ensures few { result ≤ length front.now + 1 }
{
    memchr_iter(b'\n', front).count() + 1
}

/// The column of what stands after these bytes, from 1, counted in bytes.
pub fn column_behind(front: &[u8]) -> usize
    ensures value { result ≡ column_behind front.now }
    ensures few { result ≤ length front.now + 1 }
{
    match memrchr(b'\n', front) {
        Some(end) => front.len() - end,
        None => front.len() + 1,
    }
}
