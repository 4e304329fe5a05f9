//! Standard input and output as a source and a sink. They tell nothing, and count their errors.
ghost use Rattle.std.specs.Prelude.{◌≡◌, None, OnOk, OnErr};
ghost use Rattle.std.specs.Io.{ReadsAtMost};
ghost use Rattle.std.specs.Io.KnownBytes.{ReadConsumes};
ghost use Rattle.basis.specs.Counts.{HasCause};
ghost use Rattle.disk.specs.Counted.{counted};
ghost use Rattle.outside.specs.Streams.{WritesWhole};

use crate::streams::{Sink, Source};
use disk::Failed;
use std::io::Read;

/// Standard input.
#[derive(Drop)]
pub struct StdSource<I: Input> {
    reader: I::Reader,
    faults: u64,
}

impl<I: Input> StdSource<I> {
    /// The standard input of the runtime.
    pub fn new(rt: &I) -> Self
        ensures { result.faults ≡ 0 }
    {
        StdSource {
            reader: rt.reader(),
            faults: 0,
        }
    }
}

impl<I: Input> Source for StdSource<I> {
    ghost left = { λ s. I.Reader.remaining s.reader };

    ghost faults = { λ s. s.faults };

    fn read(&mut self, into: &mut [u8]) -> Result<usize, Failed>
        ensures bound { ReadsAtMost result into.new }
        ensures bytes { ReadConsumes (I.Reader.remaining self.old.reader) (I.Reader.remaining self.new.reader) result into.new }
        ensures cause { HasCause self.old.faults self.new.faults result }
        ensures fine { OnOk result (self.new.faults ≡ self.old.faults) }
        ensures failed { OnErr result (self.new.faults ≡ counted self.old.faults) }
    {
        match self.reader.read(into) {
            Ok(count) => Ok(count),
            Err(_) => {
                self.faults = self.faults.saturating_add(1);
                Err(Failed)
            }
        }
    }
}

/// Standard output.
#[derive(Drop)]
pub struct StdSink<'a, P: Print> {
    rt: &'a P,
    faults: u64,
}

impl<'a, P: Print> StdSink<'a, P> {
    /// The standard output of the runtime.
    pub fn new(rt: &'a P) -> Self
        ensures { result.faults ≡ 0 }
    {
        StdSink { rt, faults: 0 }
    }
}

impl<'a, P: Print> Sink for StdSink<'a, P> {
    ghost written = { λ _. None };

    ghost faults = { λ s. s.faults };

    fn write(&mut self, bytes: &[u8]) -> Result<(), Failed>
        ensures bytes { WritesWhole None None result bytes.now }
        ensures cause { HasCause self.old.faults self.new.faults result }
        ensures fine { OnOk result (self.new.faults ≡ self.old.faults) }
        ensures failed { OnErr result (self.new.faults ≡ counted self.old.faults) }
    {
        match self.rt.write_all(bytes) {
            Ok(()) => Ok(()),
            Err(_) => {
                self.faults = self.faults.saturating_add(1);
                Err(Failed)
            }
        }
    }
}
