//! What was read of a journal.
ghost use Rattle.std.specs.Prelude.{◌≤◌, List, IfOk, IsErrOf};
ghost use Rattle.object_journal.specs.declared.entry.Entry.{Entry as EntryS};
ghost use Rattle.object_journal.specs.Journal.{HasNoNext, last_revision};

use crate::entry::Entry;
use crate::held::{are_few, take_in};
use crate::key::Key;
use crate::parting::take_record;
use crate::rules::{copied, is_lawful, is_next};
use std::alloc::Global;
use std::collections::BTreeSet;

/// Why no record follows.
#[derive(Clone, Copy, Debug, PartialEq, Eq)]
pub(crate) enum RecordFault {
    Unlawful,
    Memory,
}

/// What was read up to a gate, but for the entries.
#[derive(Debug, Drop)]
pub(crate) struct Reading {
    pub base: u64,
    /// The greatest of the base and the revisions.
    pub revision: u64,
    pub held: BTreeSet<Key>,
}

impl Reading {
    ghost use Rattle.object_journal.specs.Readings.{IsState, IsNextRecord, Advances};

    // The entry of the record at the front, which may follow but for the number of keys, and the place of the gate behind
    // it.
    fn next(&self, alloc: Global, bytes: &[u8]) -> Result<(Entry, usize), RecordFault>
        requires base { self.now.base ≤ last_revision }
        requires revision { self.now.revision ≤ last_revision }
        ensures ok { IfOk result (λ r. (entries : List EntryS) → IsState self.now entries
            → IsNextRecord self.now entries bytes.now r.0 r.1) }
        ensures unlawful { IsErrOf result RecordFault.Unlawful → (entries : List EntryS)
            → IsState self.now entries → HasNoNext self.now.base entries bytes.now }
    {
        let Some((part, size)) = take_record(bytes) else {
            return Err(RecordFault::Unlawful);
        };
        let Ok(entry) = copied(alloc, part) else {
            return Err(RecordFault::Memory);
        };
        if !is_next(self.base, self.revision, entry.revision) {
            return Err(RecordFault::Unlawful);
        }
        if !is_lawful(&self.held, &entry) {
            return Err(RecordFault::Unlawful);
        }
        Ok((entry, size))
    }

    // Takes in the record at the front, and answers its entry and the place of the gate behind it.
    pub(crate) fn advance(
        &mut self,
        alloc: Global,
        bytes: &[u8],
    ) -> Result<(Entry, usize), RecordFault>
        requires base { self.old.base ≤ last_revision }
        requires revision { self.old.revision ≤ last_revision }
        ensures ok { IfOk result (λ r. (entries : List EntryS) → IsState self.old entries
            → Advances self.old self.new entries bytes.now r.0 r.1) }
        ensures unlawful { IsErrOf result RecordFault.Unlawful → (entries : List EntryS)
            → IsState self.old entries → HasNoNext self.old.base entries bytes.now }
    {
        let (entry, place) = match self.next(alloc, bytes) {
            Ok(next) => next,
            Err(RecordFault::Unlawful) => return Err(RecordFault::Unlawful),
            Err(RecordFault::Memory) => return Err(RecordFault::Memory),
        };
        let Ok(()) = take_in(alloc, &mut self.held, &entry) else {
            return Err(RecordFault::Memory);
        };
        if !are_few(&self.held) {
            return Err(RecordFault::Unlawful);
        }
        self.revision = self.revision.max(entry.revision);
        Ok((entry, place))
    }
}
