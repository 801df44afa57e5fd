// The bodies of values, parts and files.
ghost use Rattle.std.specs.Prelude.{◌≡◌, IfOk};

use object_values::{Bytes, Memory, Text};
use std::alloc::Global;

/// A body of these bytes.
pub fn body_of(alloc: Global, bytes: &[u8]) -> Result<Text, Memory>
    ensures { IfOk result (λ body. body ≡ bytes.now) }
{
    Text::of(Bytes::from_slice(alloc, bytes)?)
}
