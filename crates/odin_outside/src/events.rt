// What runs, and what happened, where child programs are started.
use object_values::{Copied, Job, Memory};
use std::alloc::Global;

/// A child program that runs, in its slot.
#[derive(PartialEq, Eq, Drop)]
pub struct Running {
    pub slot: u32,
    pub job: Job,
}

/// A start in a slot, an end, or an end whose result was lost.
#[derive(PartialEq, Eq, Drop)]
pub enum ToolEvent {
    Began(u32, Job),
    Ended(u32),
    Lost(u32),
}

impl Copied for Running {
    fn copy(&self, alloc: Global) -> Result<Self, Memory> {
        Ok(Running {
            slot: self.slot,
            job: self.job.copy(alloc)?,
        })
    }
}

impl Copied for ToolEvent {
    fn copy(&self, alloc: Global) -> Result<Self, Memory> {
        match self {
            ToolEvent::Began(slot, job) => Ok(ToolEvent::Began(*slot, job.copy(alloc)?)),
            ToolEvent::Ended(slot) => Ok(ToolEvent::Ended(*slot)),
            ToolEvent::Lost(slot) => Ok(ToolEvent::Lost(*slot)),
        }
    }
}
