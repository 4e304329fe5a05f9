//! Which entry may follow others.
ghost use Rattle.std.specs.Prelude.{◌≡◌, ◌↔◌, ◌≤◌, List, IsTrue, IfOk};
ghost use Rattle.object_journal.specs.declared.entry.Entry.{Entry};
ghost use Rattle.object_journal.specs.Journal.{IsNextRevision, IsLawfulChange, last_revision, revision_after};
ghost use Rattle.object_journal.specs.Parts.{change_seen, entry_seen};
ghost use Rattle.object_journal.specs.HeldKeys.{AreHeld};

use crate::entry::{Change, Entry};
use crate::key::Key;
use crate::parts::{ChangePart, EntryPart};
use basis::Memory;
use minor_version::{Blob, Text};
use std::alloc::Global;
use std::collections::BTreeSet;

/// No revision is above it.
pub const LAST_REVISION: u64 = 1_000_000;

/// Whether the revision may follow, where this is the greatest of the base and the earlier revisions.
pub(crate) fn is_next(base: u64, greatest: u64, revision: u64) -> bool
    requires greatest { greatest ≤ last_revision }
    requires base { base ≤ last_revision }
    ensures { (before : List Entry) → greatest ≡ revision_after base before → IsTrue result
        ↔ IsNextRevision base before revision }
{
    if revision == 0 || LAST_REVISION < revision {
        return false;
    }
    if greatest == base {
        revision <= base + 1
    } else {
        revision == greatest + 1
    }
}

/// Whether the change may follow, where these keys are held.
pub(crate) fn is_lawful(held: &BTreeSet<Key>, entry: &Entry) -> bool
    ensures { (before : List Entry) → AreHeld held.now before → IsTrue result
        ↔ IsLawfulChange before entry.now entry.now.change }
{
    match &entry.change {
        Change::Put { created, .. } => 1 <= *created && *created <= entry.revision,
        Change::Removal => held.contains(&entry.key),
    }
}

fn copied_change(alloc: Global, part: ChangePart<'_>) -> Result<Change, Memory>
    ensures { IfOk result (λ c. c ≡ change_seen part.entry) }
{
    match part {
        ChangePart::Put { created, body } => Ok(Change::Put {
            created,
            body: Blob::copy(alloc, body)?,
        }),
        ChangePart::Removal => Ok(Change::Removal),
    }
}

/// The entry, taken out of the file.
pub(crate) fn copied(alloc: Global, part: EntryPart<'_>) -> Result<Entry, Memory>
    ensures { IfOk result (λ e. e ≡ entry_seen part.entry) }
{
    let key = Key {
        group: Text::from_str(alloc, part.key.group)?,
        resource: Text::from_str(alloc, part.key.resource)?,
        namespace: Text::from_str(alloc, part.key.namespace)?,
        name: Text::from_str(alloc, part.key.name)?,
    };
    Ok(Entry {
        key,
        revision: part.revision,
        change: copied_change(alloc, part.change)?,
    })
}
