// What a person sees while tools run, and what is noted of their runs.
use crate::faults::Fault;
use crate::told::say;
use crate::why::Reasons;
use build_files::causes::Cause;
use build_view::labels::label_of;
use build_view::progress::{CLEARED, progress_line};
use build_view::runs::{Run, Runs};
use build_view::watched::Watch;
use object_values::{Bytes, Job, Memory, Seq};
use project_folder::words::{Colours, View};
use std::alloc::Global;
use std::env;
use std::io::{self, IsTerminal, Write};
use std::time::Instant;

/// Whether a variable of the environment is there and isn't empty.
fn is_set(rt: &HostRuntime, name: &str) -> bool {
    match env::var(rt, name) {
        Ok(value) => !value.is_empty(),
        Err(_) => false,
    }
}

/// Whether standard error is a terminal that follows commands.
fn is_screen(rt: &HostRuntime) -> bool {
    let is_dumb = match env::var(rt, "TERM") {
        Ok(value) => value.as_str() == "dumb",
        Err(_) => true,
    };
    rt.stderr().is_terminal() && !is_dumb
}

/// Whether messages have colours.
pub(crate) fn has_colours(rt: &HostRuntime, colours: Colours) -> bool {
    match colours {
        Colours::Always => true,
        Colours::Never => false,
        Colours::Auto => is_screen(rt) && !is_set(rt, "NO_COLOR"),
    }
}

/// The path of a file that a word names by the folder where the program was started, since the project's is another one.
pub(crate) fn started_path(rt: &HostRuntime, word: Option<&str>) -> Result<Option<String>, Fault> {
    let Some(word) = word else {
        return Ok(None);
    };
    let alloc = rt.alloc();
    if word.starts_with('/') {
        return Ok(Some(String::from_str(alloc, word)?));
    }
    match env::current_dir(rt) {
        Ok(folder) => {
            let folder = folder.as_str();
            Ok(Some(format!(in alloc; "{folder}/{word}")?))
        }
        Err(error) => Err(output_fault(alloc, word, &error)),
    }
}

/// The fault of a file that can't be written.
pub(crate) fn output_fault(alloc: Global, place: &str, error: &io::Error) -> Fault {
    match Cause::at(alloc, place, error) {
        Ok(cause) => Fault::Output(cause),
        Err(Memory) => Fault::Memory,
    }
}

/// The runs of tools, with the first moment of the build.
#[derive(Drop)]
struct Recording {
    start: Instant,
    runs: Runs,
}

/// What was noted of a build that has ended: the runs of its tools, and how many microseconds it took.
#[derive(Drop)]
pub(crate) struct Noted {
    pub(crate) runs: Seq<Run>,
    pub(crate) took: u64,
}

/// Tells on a terminal how far the build is, tells why each tool is run where that is asked for, and notes when each tool runs.
#[derive(Drop)]
pub(crate) struct Screen<'a> {
    rt: &'a HostRuntime,
    shows: bool,
    started: u64,
    ended: u64,
    label: Bytes,
    reasons: Option<Reasons>,
    recording: Option<Recording>,
    /// Why nothing is noted though it is wanted. A tool isn't held up by that: it is told once the build has ended.
    lost: Option<Fault>,
}

impl<'a> Screen<'a> {
    pub(crate) fn new(
        rt: &'a HostRuntime,
        quiet: bool,
        notes: bool,
        reasons: Option<Reasons>,
    ) -> Self {
        let (recording, lost) = match (notes, Instant::now(rt)) {
            (false, _) => (None, None),
            (true, Ok(start)) => {
                let runs = Runs::new(rt.alloc());
                (Some(Recording { start, runs }), None)
            }
            (true, Err(error)) => (
                None,
                Some(output_fault(rt.alloc(), "the trace or the page", &error)),
            ),
        };
        Screen {
            rt,
            shows: !quiet && is_screen(rt),
            started: 0,
            ended: 0,
            label: Bytes::new(rt.alloc()),
            reasons,
            recording,
            lost,
        }
    }

    /// How many tools were started.
    pub(crate) fn started(&self) -> u64 {
        self.started
    }

    /// Writes the line of progress over the one before. Want of memory for it is no fault of the build.
    fn show(&self, alloc: Global) {
        if !self.shows {
            return;
        }
        if let Ok(line) = progress_line(alloc, self.ended, self.started, self.label.as_slice()) {
            let _ = self.rt.stderr().write_all(line.as_slice());
        }
    }

    /// Clears the line of progress, so that what is told next stands alone.
    pub(crate) fn clear(&self) {
        if self.shows && self.started > 0 {
            let _ = self.rt.stderr().write_all(CLEARED);
        }
    }

    /// Tells why a tool is run, where that is asked for. Want of memory for it is no fault of the build.
    fn tell_reason(&self, alloc: Global, job: &Job) {
        let Some(reasons) = &self.reasons else {
            return;
        };
        if let Ok(line) = reasons.line(alloc, &self.label, job) {
            self.clear();
            say(self.rt, line.as_slice());
        }
    }

    /// The time since the build began, in microseconds. Where the clock can't be read it is told as none.
    fn now(&self, start: &Instant) -> u64 {
        match start.elapsed(self.rt) {
            Ok(passed) => passed
                .as_secs()
                .saturating_mul(1_000_000)
                .saturating_add(u64::from(passed.subsec_micros())),
            Err(_) => 0,
        }
    }

    /// Notes a start or an end.
    fn note(&mut self, alloc: Global, slot: u32, starts: bool) {
        let Some(mut recording) = self.recording.take() else {
            return;
        };
        let at = self.now(&recording.start);
        let noted = if starts {
            recording.runs.began(alloc, slot, self.label.as_slice(), at)
        } else {
            recording.runs.ended(slot, at)
        };
        match noted {
            Ok(()) => self.recording = Some(recording),
            Err(Memory) => self.lost = Some(Fault::Memory),
        }
    }

    /// What was noted, where that was wanted.
    pub(crate) fn into_noted(mut self) -> Result<Option<Noted>, Fault> {
        if let Some(fault) = self.lost.take() {
            return Err(fault);
        }
        let Some(Recording { start, runs }) = self.recording.take() else {
            return Ok(None);
        };
        Ok(Some(Noted {
            runs: runs.into_ended(),
            took: self.now(&start),
        }))
    }
}

impl Watch for Screen<'_> {
    fn began(&mut self, alloc: Global, slot: u32, job: &Job) {
        self.started = self.started.saturating_add(1);
        let label = label_of(alloc, job);
        let has_label = label.is_ok();
        if let Ok(label) = label {
            self.label = label;
        }
        self.note(alloc, slot, true);
        if has_label {
            self.tell_reason(alloc, job);
        }
        self.show(alloc);
    }

    fn ended(&mut self, alloc: Global, slot: u32) {
        self.ended = self.ended.saturating_add(1);
        self.note(alloc, slot, false);
        self.show(alloc);
    }
}
