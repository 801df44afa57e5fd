// The failure of an object of the outside.
use object_values::{Copied, Memory};
use std::alloc::Global;

/// The object of the outside has failed, and has counted it.
#[derive(Clone, Copy, PartialEq, Eq)]
pub struct Failed;

impl Copied for Failed {
    fn copy(&self, _alloc: Global) -> Result<Self, Memory> {
        Ok(*self)
    }
}
