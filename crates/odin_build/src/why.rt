// Why tools are run: how their calls differ from those that were kept before the build.
use crate::kept::open_store;
use crate::told::Line;
use build_view::reasons::changed_labels;
use call_layout::told::{CallTold, read_call};
use indexmap::IndexMap;
use kept_tables::{Kept, KeptCall};
use object_values::{Bytes, Call, CallPart, Copied, FileBody, Job, Memory, Seq};
use odin_engine::Engine;
use odin_outside::Tree;
use std::alloc::Global;

/// The calls that were kept before a build, and where the last one of each label stands among them.
#[derive(Drop)]
struct Earlier {
    engine: Engine,
    places: IndexMap<Bytes, u64>,
}

/// Tells why tools are run. There are no earlier calls where they can't be read: why that is so the build itself tells.
#[derive(Drop)]
pub(crate) struct Reasons {
    earlier: Option<Earlier>,
}

// ---- earlier calls

/// What the runs of a call are called by, as `label_of` has it of a job.
fn label_of_call(alloc: Global, call: &Call) -> Result<Bytes, Memory> {
    let mut label = call.tool.copy(alloc)?;
    if let Some(part) = call.parts.as_slice().first() {
        label.push(b' ')?;
        label.extend_from_slice(part.label.as_slice())?;
    }
    Ok(label)
}

/// The place of the last call of each label.
fn last_places(alloc: Global, kept: &Kept) -> Result<IndexMap<Bytes, u64>, Memory> {
    let mut places = IndexMap::new(alloc);
    for place in 0..kept.calls() {
        if let Some(found) = kept.call_at(alloc, place)? {
            places.insert(label_of_call(alloc, &found.call)?, place)?;
        }
    }
    Ok(places)
}

fn read_earlier<T: Tree>(rt: &HostRuntime, path: &[u8], tree: &mut T) -> Option<Earlier> {
    let engine = open_store(rt, path, tree)?;
    let places = last_places(rt.alloc(), engine.store().kept()).ok()?;
    Some(Earlier { engine, places })
}

// ---- the call of a job

/// The parts that a file `call` tells, with their bodies in the files after it. Their slots aren't told, and don't count.
fn parts_told(
    alloc: Global,
    told: &CallTold,
    bodies: &[FileBody],
) -> Result<Seq<CallPart>, Memory> {
    let mut parts = Seq::new(alloc);
    let mut bodies = bodies.iter();
    for part in told.parts.as_slice() {
        let file = if part.is_there { bodies.next() } else { None };
        let body = match file {
            Some(file) => Some(file.body.copy(alloc)?),
            None => None,
        };
        parts.push(CallPart {
            slot: 0,
            label: part.label.copy(alloc)?,
            body,
        })?;
    }
    Ok(parts)
}

/// The parts of the call of a job, whose first file tells them.
fn parts_of(alloc: Global, job: &Job) -> Result<Seq<CallPart>, Memory> {
    let Some((call, bodies)) = job.files.as_slice().split_first() else {
        return Ok(Seq::new(alloc));
    };
    match read_call(alloc, call.body.as_slice())? {
        Some(told) => parts_told(alloc, &told, bodies),
        None => Ok(Seq::new(alloc)),
    }
}

// ---- reasons

/// Whether these are the same parts one after another.
fn are_in_step(old: &[CallPart], new: &[CallPart]) -> bool {
    old.len() == new.len()
        && old.iter().zip(new).all(|(one, other)| one.label == other.label
            && one.body == other.body)
}

/// The end of a line that tells how a call differs from an earlier one.
fn changed_line(
    alloc: Global,
    line: Line,
    old: &[CallPart],
    new: &[CallPart],
) -> Result<Bytes, Memory> {
    let labels = changed_labels(alloc, old, new)?;
    if labels.is_empty() {
        let words = if are_in_step(old, new) {
            "tool or parameters changed"
        } else {
            "order or number of parts changed"
        };
        return line.text(words)?.end();
    }
    let mut line = line.text("changed: ")?;
    for (place, label) in labels.as_slice().iter().enumerate() {
        if place > 0 {
            line = line.text(", ")?;
        }
        line = line.shown(label.as_slice())?;
    }
    line.end()
}

impl Reasons {
    /// Those over the calls that the store keeps now, for the graph in this file.
    pub(crate) fn read<T: Tree>(rt: &HostRuntime, path: &[u8], tree: &mut T) -> Self {
        Reasons {
            earlier: read_earlier(rt, path, tree),
        }
    }

    /// The last call of a label.
    fn last_call(&self, alloc: Global, label: &Bytes) -> Result<Option<Call>, Memory> {
        let Some(earlier) = &self.earlier else {
            return Ok(None);
        };
        let Some(place) = earlier.places.get(label) else {
            return Ok(None);
        };
        match earlier.engine.store().kept().call_at(alloc, *place)? {
            Some(KeptCall { call, outcome: _ }) => Ok(Some(call)),
            None => Ok(None),
        }
    }

    /// The line that tells why the tool of a job is run, which has this label.
    pub(crate) fn line(&self, alloc: Global, label: &Bytes, job: &Job) -> Result<Bytes, Memory> {
        let line = Line::new(alloc)?.shown(label.as_slice())?.text(": ")?;
        let Some(old) = self.last_call(alloc, label)? else {
            return line.text("new")?.end();
        };
        let new = parts_of(alloc, job)?;
        changed_line(alloc, line, old.parts.as_slice(), new.as_slice())
    }
}
