//! A source and a sink in memory, for tests and for worlds of the program's own.
ghost use Rattle.std.specs.Prelude.{◌≡◌, ◌↔◌, ◌⊎◌, [], Some, IsErr, IfOk, OnOk, OnErr, Contains, length, min};
ghost use Rattle.std.specs.Io.{ReadsAtMost};
ghost use Rattle.std.specs.Io.KnownBytes.{ReadConsumes};
ghost use Rattle.basis.specs.Counts.{HasCause};
ghost use Rattle.disk.specs.Counted.{counted};
ghost use Rattle.outside.specs.Streams.{WritesWhole};

use crate::streams::{Sink, Source};
use disk::{FailList, Failed};
use minor_version::Blob;
use std::alloc::Global;
use std::marker::Model;

/// A source in memory. It tells its bytes, and fails exactly the calls of its list.
#[derive(Debug, Drop)]
pub struct MemSource {
    bytes: Blob,
    at: usize,
    calls: u64,
    faults: u64,
    fail: FailList,
}

impl Model for MemSource {
    ghost use Rattle.std.specs.Prelude.{◌≤◌, drop, length};
    ghost use Rattle.outside.specs.Streams.{Feed};

    ghost Value = { Feed };

    ghost view = { λ s. record { left = drop s.at s.bytes; calls = s.calls; faults = s.faults; fails = s.fail } };

    ghost invariant = { λ s. s.at ≤ length s.bytes };
}

impl MemSource {
    /// A source of these bytes.
    pub fn new(bytes: Blob, fail: FailList) -> Self
        ensures { result ≡ record { left = bytes; calls = 0; faults = 0; fails = fail } }
    {
        MemSource {
            bytes,
            at: 0,
            calls: 0,
            faults: 0,
            fail,
        }
    }
}

impl Source for MemSource {
    ghost left = { λ s. Some s.left };

    ghost faults = { λ s. s.faults };

    fn read(&mut self, into: &mut [u8]) -> Result<usize, Failed>
        ensures bound { ReadsAtMost result into.new }
        ensures bytes { ReadConsumes (Some self.old.left) (Some self.new.left) result into.new }
        ensures cause { HasCause self.old.faults self.new.faults result }
        ensures fine { OnOk result (self.new.faults ≡ self.old.faults) }
        ensures failed { OnErr result (self.new.faults ≡ counted self.old.faults) }

        // It gives as many bytes as are left and have room.
        ensures full { IfOk result (λ n. n ≡ min (length self.old.left) (length into.new)) }

        // The numbers of the failing calls are those of the list.
        ensures fails { IsErr result ↔ Contains self.old.fails (counted self.old.calls) }
        ensures calls { self.new.calls ≡ counted self.old.calls }
        ensures listed { self.new.fails ≡ self.old.fails }
    {
        self.calls = self.calls.saturating_add(1);
        if self.fail.contains(self.calls) {
            self.faults = self.faults.saturating_add(1);
            return Err(Failed);
        }
        let (_, rest) = self.bytes.bytes().split_at(self.at);
        let count = rest.len().min(into.len());
        let (front, _) = rest.split_at(count);
        into[..count].copy_from_slice(front);
        self.at += count;
        Ok(count)
    }
}

/// A sink in memory. It tells its bytes, and fails the calls of its list, and those that find no memory.
#[derive(Debug, Drop)]
pub struct MemSink {
    bytes: Vec<u8>,
    calls: u64,
    faults: u64,
    starved: u64,
    fail: FailList,
}

impl Model for MemSink {
    ghost use Rattle.outside.specs.Streams.{Record};

    ghost Value = { Record };

    ghost view = { λ s. record {
      written = s.bytes.items;
      calls = s.calls;
      faults = s.faults;
      starved = s.starved;
      fails = s.fail;
    } };
}

impl MemSink {
    /// A sink to which nothing was written.
    pub fn new(alloc: Global, fail: FailList) -> Self
        ensures { result ≡ record { written = []; calls = 0; faults = 0; starved = 0; fails = fail } }
    {
        MemSink {
            bytes: Vec::new(alloc),
            calls: 0,
            faults: 0,
            starved: 0,
            fail,
        }
    }

    /// The bytes that were written.
    pub fn written(&self) -> &[u8]
        ensures { result.now ≡ self.now.written }
    {
        self.bytes.as_slice()
    }

    /// How many calls found no memory.
    pub fn starved(&self) -> u64
        ensures { result ≡ self.now.starved }
    {
        self.starved
    }
}

impl Sink for MemSink {
    ghost written = { λ s. Some s.written };

    ghost faults = { λ s. s.faults };

    fn write(&mut self, bytes: &[u8]) -> Result<(), Failed>
        ensures bytes { WritesWhole (Some self.old.written) (Some self.new.written) result bytes.now }
        ensures cause { HasCause self.old.faults self.new.faults result }
        ensures fine { OnOk result (self.new.faults ≡ self.old.faults) }
        ensures failed { OnErr result (self.new.faults ≡ counted self.old.faults) }

        // A refused write appends nothing.
        ensures kept { OnErr result (self.new.written ≡ self.old.written) }

        // A listed call fails, and another only where it found no memory and counted that.
        ensures listed_fails { Contains self.old.fails (counted self.old.calls) → IsErr result }
        ensures fails { OnErr result (Contains self.old.fails (counted self.old.calls)
            ⊎ (self.new.starved ≡ counted self.old.starved)) }
        ensures calls { self.new.calls ≡ counted self.old.calls }
        ensures fed { OnOk result (self.new.starved ≡ self.old.starved) }
        ensures listed_fed { Contains self.old.fails (counted self.old.calls) → self.new.starved
            ≡ self.old.starved }
        ensures listed { self.new.fails ≡ self.old.fails }
    {
        self.calls = self.calls.saturating_add(1);
        if self.fail.contains(self.calls) {
            self.faults = self.faults.saturating_add(1);
            return Err(Failed);
        }
        match self.bytes.extend_from_slice(bytes) {
            Ok(()) => Ok(()),
            Err(_) => {
                self.faults = self.faults.saturating_add(1);
                self.starved = self.starved.saturating_add(1);
                Err(Failed)
            }
        }
    }
}
