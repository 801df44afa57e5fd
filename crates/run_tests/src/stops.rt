// A session is stopped within each call of its disk: what is asked then is answered as over a fresh file with the same sources.
use super::rows::{PUT, WARNING_AND_BACK};
use super::stored::{Ran, Step, Text, commands_of, crashed, disk_of, front, run_on};
use object_values::{Bytes, Memory};
use odin_fakes::MemDisk;
use std::alloc::Global;
use std::test::Fail;
use test_support::C_UNITS;

// What is held between two steps.
struct Held {
    // Edits that make the sources, and what is replied to them.
    edits: Text,
    edited: Text,
    // What is replied to the question.
    replies: Text,
    // How many jobs the question starts at most, since the other calls are kept.
    starts: usize,
}

// Some steps of a session, and what is asked after a stop. What is held is said for each place between the steps, so there is one more.
struct Session {
    steps: &'static [Step],
    question: Text,
    held: &'static [Held],
}

impl Held {
    // Whether a run that asks the question goes so.
    fn is_told(&self, ran: &Ran) -> bool {
        ran.replied(self.replies) && ran.starts.count() <= self.starts
    }
}

const EDITS: Session = Session {
    steps: WARNING_AND_BACK,
    question: b"sources\nask m.sm:exe\n",
    held: &[
        Held {
            edits: b"",
            edited: b"",
            replies: b"sources 0\nobject abort none 0\nmessages 1\nabort m.sm no source m.sm\n",
            starts: 0,
        },
        Held {
            edits: b"put m.sm 4\na.c\n",
            edited: b"put m.sm 4\n",
            replies: b"sources 1\nm.sm 4\nobject abort none 0\nmessages 1\nabort a.c no source a.c\n",
            starts: 0,
        },
        Held {
            edits: b"put m.sm 4\na.c\nput a.c 4\nx=1\n",
            edited: b"put m.sm 4\nput a.c 4\n",
            replies: b"sources 2\na.c 4\nm.sm 4\nobject ok simple 4\nx=1\n\nmessages 0\n",
            starts: 3,
        },
        Held {
            edits: b"put m.sm 4\na.c\nput a.c 4\nx=1\n",
            edited: b"put m.sm 4\nput a.c 4\n",
            replies: b"sources 2\na.c 4\nm.sm 4\nobject ok simple 4\nx=1\n\nmessages 0\n",
            starts: 0,
        },
        Held {
            edits: b"put m.sm 4\na.c\nput a.c 11\nx=1\n//!old\n",
            edited: b"put m.sm 4\nput a.c 11\n",
            replies: b"sources 2\na.c 11\nm.sm 4\nobject warning simple 4\nx=1\n\nmessages 1\nwarning a.c:o old\n",
            starts: 2,
        },
        Held {
            edits: b"put m.sm 4\na.c\nput a.c 11\nx=1\n//!old\n",
            edited: b"put m.sm 4\nput a.c 11\n",
            replies: b"sources 2\na.c 11\nm.sm 4\nobject warning simple 4\nx=1\n\nmessages 1\nwarning a.c:o old\n",
            starts: 0,
        },
    ],
};

const ONE_PUT: Session = Session {
    steps: &[PUT],
    question: b"sources\nask a.c:o\n",
    held: &[
        Held {
            edits: b"",
            edited: b"",
            replies: b"sources 0\nobject abort none 0\nmessages 1\nabort a.c no source a.c\n",
            starts: 0,
        },
        Held {
            edits: b"put a.c 4\nx=1\n",
            edited: b"put a.c 4\n",
            replies: b"sources 1\na.c 4\nobject ok simple 4\nx=1\n\nmessages 0\n",
            starts: 2,
        },
    ],
};

const SESSIONS: &[Session] = &[EDITS, ONE_PUT];

// A text and another one after it.
fn joined(alloc: Global, front: &[u8], back: &[u8]) -> Result<Vec<u8>, Memory> {
    let mut text = Vec::new(alloc);
    text.extend_from_slice(front)?;
    text.extend_from_slice(back)?;
    Ok(text)
}

// Whether what is held is told so over a fresh file.
fn is_fresh(alloc: Global, session: &Session, held: &Held) -> Result<bool, Memory> {
    let mut disk = disk_of(alloc, b"")?;
    let commands = joined(alloc, held.edits, session.question)?;
    let ran = run_on(alloc, &[C_UNITS], &mut disk, commands.as_slice())?;
    Ok(ran.replied(joined(alloc, held.edited, held.replies)?.as_slice()))
}

#[test]
fn a_fresh_file_answers_so(rt: HostRuntime) -> Result<(), Fail> {
    for session in SESSIONS {
        for held in session.held {
            assert!(rt; is_fresh(rt.alloc(), session, held)?);
        }
    }
    Ok(())
}

impl Session {
    // The run that asks the question over an image.
    fn ask(&self, alloc: Global, image: &[u8]) -> Result<Ran, Memory> {
        let mut disk = disk_of(alloc, image)?;
        run_on(alloc, &[C_UNITS], &mut disk, self.question)
    }

    // The disk after the first of the steps.
    fn behind(&self, alloc: Global, count: usize) -> Result<MemDisk, Memory> {
        let mut disk = disk_of(alloc, b"")?;
        let commands = commands_of(alloc, front(self.steps, count))?;
        let _ = run_on(alloc, &[C_UNITS], &mut disk, commands.as_slice())?;
        Ok(disk)
    }

    // Whether an image that a stop left within a step is told as what was held before it, or as what is held after it.
    fn is_told(&self, alloc: Global, image: &Bytes, step: usize) -> Result<bool, Memory> {
        let asked = self.ask(alloc, image.as_slice())?;
        Ok(
            self.held
                .iter()
                .skip(step)
                .take(2)
                .any(|held| held.is_told(&asked)),
        )
    }

    // Whether that is so of each stop within a step, by eight choices of what it leaves. The first step has the opening of the file before it.
    fn stops_well(&self, alloc: Global, step: usize) -> Result<bool, Memory> {
        let first = match step {
            0 => 0,
            _ => self.behind(alloc, step)?.calls().saturating_add(1),
        };
        let disk = self.behind(alloc, step.saturating_add(1))?;
        for moment in first..=disk.calls() {
            for choice in 0..8 {
                let image = crashed(alloc, &disk, moment, choice)?;
                if !self.is_told(alloc, &image, step)? {
                    return Ok(false);
                }
            }
        }
        Ok(true)
    }
}

#[test]
fn a_stop_leaves_what_is_answered_as_over_a_fresh_file(rt: HostRuntime) -> Result<(), Fail> {
    for session in SESSIONS {
        for step in 0..session.held.len().saturating_sub(1) {
            assert!(rt; session.stops_well(rt.alloc(), step)?, "{step}");
        }
    }
    Ok(())
}
