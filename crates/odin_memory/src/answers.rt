// What jobs leave.
ghost use Rattle.std.specs.Prelude.{◌≡◌, IfOk};
ghost use Rattle.odin_memory.specs.Tools.{answer_among, answer_to_job};

use crate::toys::toy;
use object_values::{Copied, Memory, Seq};
use odin_outside::{Job, Raw};
use std::alloc::Global;

/// A job with what it leaves.
#[derive(PartialEq, Eq, Drop)]
pub struct JobRaw {
    pub job: Job,
    pub raw: Raw,
}

impl Copied for JobRaw {
    fn copy(&self, alloc: Global) -> Result<Self, Memory> {
        Ok(JobRaw {
            job: self.job.copy(alloc)?,
            raw: self.raw.copy(alloc)?,
        })
    }
}

/// What jobs leave: that of the first pair with the job, or the other one where there is none; or what the toy tools make of them.
#[derive(PartialEq, Eq, Drop)]
pub enum Answers {
    Pairs(Seq<JobRaw>, Raw),
    Toys,
}

// What the first pair with the job says, or the other one.
fn answer_in(alloc: Global, pairs: &[JobRaw], other: &Raw, job: &Job) -> Result<Raw, Memory>
    ensures { IfOk result (λ raw. raw ≡ answer_among pairs.now other.now job.now) }
{
    for pair in pairs {
        if pair.job == *job {
            return pair.raw.copy(alloc);
        }
    }
    other.copy(alloc)
}

impl Answers {
    /// What the job leaves.
    pub(crate) fn answer(&self, alloc: Global, job: &Job) -> Result<Raw, Memory>
        ensures { IfOk result (λ raw. raw ≡ answer_to_job self.now job.now) }
    {
        match self {
            Answers::Pairs(pairs, other) => answer_in(alloc, pairs.as_slice(), other, job),
            Answers::Toys => toy(alloc, job),
        }
    }
}
