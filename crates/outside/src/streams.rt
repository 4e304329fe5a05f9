//! Where bytes come from and where they go.
ghost use Rattle.std.specs.Prelude.{◌≡◌, ℕ, List, OnOk};
ghost use Rattle.std.specs.declared.option.Option.{Option};
ghost use Rattle.std.specs.Io.{ReadsAtMost};
ghost use Rattle.std.specs.Io.KnownBytes.{ReadConsumes};
ghost use Rattle.basis.specs.Counts.{HasCause};
ghost use Rattle.outside.specs.Streams.{WritesWhole};

use disk::Failed;

/// Where bytes come from.
pub trait Source {
    /// The bytes that are left, where the source tells.
    ghost left: { Self → Option (List ℕ) };

    /// How many calls failed. A `u64` that never falls.
    ghost faults: { Self → ℕ };

    /// Puts the next bytes at the front of `into`, and says how many: none for a buffer that isn't empty only at the
    /// end. At `Failed` no byte was taken, and what `into` holds is unknown.
    fn read(&mut self, into: &mut [u8]) -> Result<usize, Failed>
        ensures bound { ReadsAtMost result into.new }
        ensures bytes { ReadConsumes (left self.old) (left self.new) result into.new }
        ensures cause { HasCause (faults self.old) (faults self.new) result }
        ensures fine { OnOk result (faults self.new ≡ faults self.old) };
}

/// Where bytes go.
pub trait Sink {
    /// The bytes that were written, where the sink tells.
    ghost written: { Self → Option (List ℕ) };

    /// How many calls failed. A `u64` that never falls.
    ghost faults: { Self → ℕ };

    /// Appends all the bytes, or at `Failed` a front of them.
    fn write(&mut self, bytes: &[u8]) -> Result<(), Failed>
        ensures bytes { WritesWhole (written self.old) (written self.new) result bytes.now }
        ensures cause { HasCause (faults self.old) (faults self.new) result }
        ensures fine { OnOk result (faults self.new ≡ faults self.old) };
}
