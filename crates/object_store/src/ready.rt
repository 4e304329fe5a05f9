//! An entry that is ready for a commit.
ghost use Rattle.std.specs.Prelude.{◌≡◌, ◌↔◌, ◌<◌, length, IfOk, IsErrOf};
ghost use Rattle.object_journal.specs.Payload.{HasShortTexts, longest_payload, payload_of};

use object_journal::{Entry, FrameFault, Framed, frame};
use std::alloc::Global;
use std::error::Error;
use std::fmt;
use std::marker::Model;

/// Why no entry is ready.
#[derive(Clone, Copy, Debug, PartialEq, Eq)]
pub enum ReadyFault {
    /// The store holds 4,096 records and not this key, or its revision is the last one, 1,000,000.
    Full,
    /// The payload would have more than 1,048,576 bytes.
    TooLong,
    /// Memory ran out.
    Memory,
}

impl fmt::Display for ReadyFault {
    fn fmt<W: fmt::Write>(&self, f: &mut fmt::Formatter<W>) -> fmt::Result {
        match self {
            ReadyFault::Full => f.write_str("the store is full"),
            ReadyFault::TooLong => FrameFault::TooLong.fmt(f),
            ReadyFault::Memory => FrameFault::Memory.fmt(f),
        }
    }
}

impl Error for ReadyFault {}

/// An entry with its bytes, seen as the entry.
#[derive(Debug, Drop)]
pub struct Ready {
    entry: Entry,
    framed: Framed,
}

impl Model for Ready {
    ghost use Rattle.std.specs.Prelude.{◌≡◌};
    ghost use Rattle.object_journal.specs.declared.entry.Entry.{Entry};

    ghost Value = { Entry };

    ghost view = { λ r. r.entry };

    ghost invariant = { λ r. r.framed ≡ r.entry };
}

impl Ready {
    // The entry's bytes.
    pub(crate) fn framed(&self) -> &Framed
        ensures { result.now ≡ self.now }
    {
        &self.framed
    }

    // The entry.
    pub(crate) fn into_entry(self) -> Entry
        ensures { result ≡ self }
    {
        self.entry
    }
}

/// Makes the entry ready.
pub(crate) fn ready_of(alloc: Global, entry: Entry) -> Result<Ready, ReadyFault>
    requires { HasShortTexts entry.key }
    ensures ok { IfOk result (λ r. r ≡ entry) }
    ensures too_long { IsErrOf result ReadyFault.TooLong
        ↔ (longest_payload < length (payload_of entry)) }
    ensures full { ¬ IsErrOf result ReadyFault.Full }
{
    match frame(alloc, &entry) {
        Ok(framed) => Ok(Ready { entry, framed }),
        Err(FrameFault::TooLong) => Err(ReadyFault::TooLong),
        Err(FrameFault::Memory) => Err(ReadyFault::Memory),
    }
}
