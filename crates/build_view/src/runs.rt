//! When each tool of a build ran.
ghost use Rattle.std.specs.Prelude.{◌≡◌, ◌++◌, ◌∷◌, [], map, IfOk, OnOk};
ghost use Rattle.build_view.specs.Runs as meaning;

use object_values::{Bytes, Memory, Seq};
use std::alloc::Global;

/// A run of a tool: its slot, its label, and when it began and ended. Times are microseconds since the build began.
#[derive(Drop)]
pub struct Run {
    pub slot: u32,
    pub label: Bytes,
    pub from: u64,
    pub to: u64,
}

/// A tool that runs.
#[derive(Drop)]
struct Running {
    slot: u32,
    label: Bytes,
    from: u64,
}

/// The runs of tools, and those that run.
#[derive(Drop)]
pub struct Runs {
    running: Vec<Running>,
    ended: Seq<Run>,
}

impl Runs {
    /// None has run.
    pub fn new(alloc: Global) -> Self
        ensures running { result.running.items ≡ [] }
        ensures ended { result.ended ≡ [] }
    {
        Runs {
            running: Vec::new(alloc),
            ended: Seq::new(alloc),
        }
    }

    /// A tool was started in a slot.
    pub fn began(&mut self, alloc: Global, slot: u32, label: &[u8], at: u64) -> Result<(), Memory>
        ensures slots { OnOk result (map (λ run. run.slot) self.new.running.items
            ≡ map (λ run. run.slot) self.old.running.items ++ slot ∷ []) }
        ensures labels { OnOk result (map (λ run. run.label) self.new.running.items
            ≡ map (λ run. run.label) self.old.running.items ++ label.now ∷ []) }
        ensures times { OnOk result (map (λ run. run.from) self.new.running.items
            ≡ map (λ run. run.from) self.old.running.items ++ at ∷ []) }
        ensures ended { self.new.ended ≡ self.old.ended }
    {
        let label = Bytes::from_slice(alloc, label)?;
        self.running
            .push(Running {
                slot,
                label,
                from: at,
            })
            .map_err(|_| Memory)
    }

    /// The tool in a slot has ended. Where none runs there nothing changes.
    pub fn ended(&mut self, slot: u32, at: u64) -> Result<(), Memory>
        ensures { OnOk result (meaning.MayAddRun slot at self.old.ended self.new.ended) }
    {
        for place in 0..self.running.len() {
            if self.running[place].slot == slot {
                let Running { slot, label, from } = self.running.remove(place);
                return self.ended.push(Run {
                    slot,
                    label,
                    from,
                    to: at,
                });
            }
        }
        Ok(())
    }

    /// Those that have ended.
    pub fn into_ended(self) -> Seq<Run>
        ensures { result ≡ self.ended }
    {
        let Runs { running: _, ended } = self;
        ended
    }
}
