//! What is made of entries as they are read.
ghost use Rattle.std.specs.Prelude.{◌≡◌, List, [], ◌∷◌, ◌++◌, OnOk};
ghost use Rattle.object_journal.specs.declared.entry.Entry.{Entry as EntryS};

use crate::entry::{Entries, Entry};
use basis::Memory;
use std::alloc::Global;

/// What a journal's entries make, one after the other, so that no more of them need be kept.
pub trait Gather: Drop {
    /// What was gathered is what these entries make.
    ghost is_of: { Self → List EntryS → Type 0 };

    /// What no entries make.
    fn none(alloc: Global) -> Self
        ensures { is_of result [] };

    /// Takes one more entry in.
    fn take_in(&mut self, alloc: Global, entry: Entry) -> Result<(), Memory>
        ensures { OnOk result ((entries : List EntryS) → is_of self.old entries
            → is_of self.new (entries ++ entry ∷ [])) };
}

/// All entries, in their order.
impl Gather for Entries {
    ghost is_of = { λ gathered entries. gathered ≡ entries };

    fn none(_alloc: Global) -> Self {
        Entries::new()
    }

    fn take_in(&mut self, alloc: Global, entry: Entry) -> Result<(), Memory> {
        self.push(alloc, entry)
    }
}
