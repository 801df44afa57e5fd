// Standard input and output. They tell nothing of their contents, and what std's reader and writer tell goes through them as it is.
ghost use Rattle.std.specs.Prelude.{◌≡◌, ◌<◌, ◌≤◌, None, length, IfOk};
ghost use Rattle.std.specs.Io.KnownBytes.{ReadConsumes, WriteAppends};
ghost use Rattle.odin_outside.specs.Causes.{HasCause};

use odin_outside::{Failed, Sink, Source};
use std::io::{Read, Write};

/// A real input, with the count of its errors.
#[derive(Drop)]
pub struct InputSource<R: Read + Drop> {
    inner: R,
    faults: u64,
}

impl<R: Read + Drop> InputSource<R> {
    pub fn new(inner: R) -> Self
        ensures { result.faults ≡ 0 }
    {
        InputSource { inner, faults: 0 }
    }
}

impl<R: Read + Drop> Source for InputSource<R> {
    ghost left = { λ _. None };

    ghost faults = { λ s. s.faults };

    fn read(&mut self, into: &mut [u8]) -> Result<usize, Failed>
        requires { 0 < length into.old }
        ensures bound { IfOk result (λ n. n ≤ length into.new) }
        ensures cause { HasCause self.old.faults self.new.faults result }
        ensures carried { let left = R.remaining self.old.inner in
            ReadConsumes left (R.remaining self.new.inner) result into.new }
    {
        match self.inner.read(into) {
            Ok(count) => Ok(count),
            Err(_) => {
                self.faults = self.faults.saturating_add(1);
                Err(Failed)
            }
        }
    }
}

/// A real output, with the count of its errors. To take nothing is an error too.
#[derive(Drop)]
pub struct OutputSink<W: Write + Drop> {
    inner: W,
    faults: u64,
}

impl<W: Write + Drop> OutputSink<W> {
    pub fn new(inner: W) -> Self
        ensures { result.faults ≡ 0 }
    {
        OutputSink { inner, faults: 0 }
    }
}

impl<W: Write + Drop> Sink for OutputSink<W> {
    ghost taken = { λ _. None };

    ghost faults = { λ s. s.faults };

    fn write(&mut self, bytes: &[u8]) -> Result<usize, Failed>
        requires { 0 < length bytes.now }
        ensures bound { IfOk result (λ n. (0 < n) × (n ≤ length bytes.now)) }
        ensures cause { HasCause self.old.faults self.new.faults result }
        ensures carried { let taken = W.contents self.old.inner in
            WriteAppends taken (W.contents self.new.inner) result bytes.now }
    {
        if let Ok(count) = self.inner.write(bytes)
            && count > 0
        {
            return Ok(count);
        }
        self.faults = self.faults.saturating_add(1);
        Err(Failed)
    }
}
