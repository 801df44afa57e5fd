// Sessions of edits and questions, and how they go on over a file that a failed or stopped run left.
use super::runs::{NONE, Ran, disk_of, run_over};
use object_values::Memory;
use std::alloc::Global;

/// Bytes that stand in a table.
pub type Text = &'static [u8];

/// Commands with their replies, and what `sources` replies after them.
pub type Step = (Text, Text, Text);

const OBJECT: Text = b"object ok simple 4\nx=1\n\nmessages 0\n";

const WARNING: Text = b"object warning simple 4\nx=1\n\nmessages 1\nwarning a.c:o old\n";

const ONE: Text = b"sources 2\na.c 4\nm.sm 4\n";

const OLD: Text = b"sources 2\na.c 11\nm.sm 4\n";

/// A program is linked, its unit gets a warning, and then its old text back.
pub const THERE_AND_BACK: &[Step] = &[
    (
        b"put m.sm 4\na.c\n",
        b"put m.sm 4\n",
        b"sources 1\nm.sm 4\n",
    ),
    (b"put a.c 4\nx=1\n", b"put a.c 4\n", ONE),
    (b"ask m.sm:exe\n", OBJECT, ONE),
    (b"put a.c 11\nx=1\n//!old\n", b"put a.c 11\n", OLD),
    (b"ask m.sm:exe\n", WARNING, OLD),
    (b"put a.c 4\nx=1\n", b"put a.c 4\n", ONE),
    (b"ask m.sm:exe\n", OBJECT, ONE),
];

const LINKED: Text = b"object ok simple 8\nx=1\ny=2\n\nmessages 0\n";

const TWO: Text = b"sources 3\na.c 4\nb.c 4\nm.sm 8\n";

/// Two units are linked, and asked for again.
pub const TWO_UNITS: &[Step] = &[
    (
        b"put m.sm 8\na.c\nb.c\n",
        b"put m.sm 8\n",
        b"sources 1\nm.sm 8\n",
    ),
    (
        b"put a.c 4\nx=1\n",
        b"put a.c 4\n",
        b"sources 2\na.c 4\nm.sm 8\n",
    ),
    (b"put b.c 4\ny=2\n", b"put b.c 4\n", TWO),
    (b"ask m.sm:exe\n", LINKED, TWO),
    (b"ask m.sm:exe\n", LINKED, TWO),
];

/// How many tools each of the sessions starts.
pub const STARTS: u64 = 5;

/// The first of some steps.
pub fn front(steps: &[Step], count: usize) -> &[Step] {
    &steps[..count.min(steps.len())]
}

/// The steps after the first ones.
pub fn behind(steps: &[Step], count: usize) -> &[Step] {
    &steps[count.min(steps.len())..]
}

/// The commands of some steps.
pub fn commands_of(alloc: Global, steps: &[Step]) -> Result<Vec<u8>, Memory> {
    let mut text = Vec::new(alloc);
    for (commands, _, _) in steps {
        text.extend_from_slice(commands)?;
    }
    Ok(text)
}

/// The replies of some steps.
pub fn replies_of(alloc: Global, steps: &[Step]) -> Result<Vec<u8>, Memory> {
    let mut text = Vec::new(alloc);
    for (_, replies, _) in steps {
        text.extend_from_slice(replies)?;
    }
    Ok(text)
}

// What `sources` replies after some steps.
fn sources_after(steps: &[Step]) -> Text {
    match steps.last() {
        Some((_, _, sources)) => sources,
        None => b"sources 0\n",
    }
}

// The replies to `sources` after some steps, and then to what comes after the first ones.
fn wanted(alloc: Global, held: &[Step], rest: &[Step]) -> Result<Vec<u8>, Memory> {
    let mut text = sources_after(held).to_vec(alloc)?;
    text.extend_from_slice(replies_of(alloc, rest)?.as_slice())?;
    Ok(text)
}

/// Whether a file holds what these first steps made, or also the next one, and the steps after them go so over it.
pub fn goes_on(
    alloc: Global,
    steps: &[Step],
    done: usize,
    jobs: &str,
    image: &[u8],
) -> Result<Option<u64>, Memory> {
    let rest = behind(steps, done);
    let mut commands = b"sources\n".to_vec(alloc)?;
    commands.extend_from_slice(commands_of(alloc, rest)?.as_slice())?;
    let mut disk = disk_of(alloc, image)?;
    let ran = run_over(alloc, jobs, NONE, &mut disk, commands.as_slice())?;
    let before = wanted(alloc, front(steps, done), rest)?;
    let after = wanted(alloc, front(steps, done.saturating_add(1)), rest)?;
    let well = ran.status == 0 && (ran.output == before || ran.output == after);
    Ok(well.then_some(ran.starts))
}

impl Ran {
    /// Whether the input was taken to its end, with these replies.
    pub fn replied(&self, replies: &[u8]) -> bool {
        self.status == 0 && self.output.as_slice() == replies
    }
}
