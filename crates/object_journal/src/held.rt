//! The keys that entries leave held.
ghost use Rattle.std.specs.Prelude.{◌↔◌, ◌++◌, [], ◌∷◌, List, IsTrue, OnOk};
ghost use Rattle.object_journal.specs.declared.entry.Entry.{Entry};
ghost use Rattle.object_journal.specs.Journal.{FewHeld};
ghost use Rattle.object_journal.specs.HeldKeys.{AreHeld, Holds, Releases};

use crate::entry::{Change, Entry};
use crate::key::Key;
use basis::Memory;
use std::alloc::Global;
use std::collections::BTreeSet;

/// No journal holds more keys.
pub const MOST_KEYS: usize = 4096;

/// Whether no more keys are held than a journal may hold.
pub(crate) fn are_few(held: &BTreeSet<Key>) -> bool
    ensures { (entries : List Entry) → AreHeld held.now entries → IsTrue result ↔ FewHeld entries }
{
    held.len() <= MOST_KEYS
}

fn hold(alloc: Global, held: &mut BTreeSet<Key>, key: &Key) -> Result<(), Memory>
    ensures { OnOk result (Holds held.old held.new key.now) }
{
    if held.contains(key) {
        return Ok(());
    }
    let Ok(_) = held.insert(key.duplicate(alloc)?) else {
        return Err(Memory);
    };
    Ok(())
}

fn release(held: &mut BTreeSet<Key>, key: &Key)
    ensures { Releases held.old held.new key.now }
{
    held.remove(key);
}

/// Takes one more entry in.
pub(crate) fn take_in(alloc: Global, held: &mut BTreeSet<Key>, entry: &Entry) -> Result<(), Memory>
    ensures { OnOk result ((entries : List Entry) → AreHeld held.old entries
        → AreHeld held.new (entries ++ entry.now ∷ [])) }
{
    match &entry.change {
        Change::Put { .. } => hold(alloc, held, &entry.key),
        Change::Removal => {
            release(held, &entry.key);
            Ok(())
        }
    }
}
