// What a build writes, in memory.
use crate::building::put;
use object_values::Bytes;
use project_build::{OutputFault, Outputs};
use std::alloc::Global;

/// The files that a build wrote, each after a line with its name. The write of one number fails, counted from 1.
#[derive(Drop)]
pub(crate) struct Written {
    pub(crate) text: Bytes,
    fails: u32,
    writes: u32,
    faults: u64,
}

impl Written {
    pub(crate) fn new(alloc: Global, fails: u32) -> Self {
        Written {
            text: Bytes::new(alloc),
            fails,
            writes: 0,
            faults: 0,
        }
    }
}

impl Outputs for Written {
    ghost use Rattle.std.specs.Prelude.{None};

    ghost files = { λ _. None };

    ghost faults = { λ w. w.faults };

    fn write(&mut self, _alloc: Global, path: &[u8], body: &[u8]) -> Result<(), OutputFault> {
        self.writes = self.writes.saturating_add(1);
        if self.writes == self.fails {
            self.faults = self.faults.saturating_add(1);
            return Err(OutputFault::Failed);
        }
        Ok(put(&[b"write ", path, b"\n", body], &mut self.text)?)
    }
}
