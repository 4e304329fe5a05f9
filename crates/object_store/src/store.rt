//! The map of records over the journal.
ghost use Rattle.std.specs.Prelude.{◌≡◌, ◌↔◌, ◌⊎◌, ◌+◌, ◌≤◌, ◌<◌, ℕ, true, false, List, [], ◌∷◌, ◌++◌, length, IsTrue, IsOk, IsErr, IfOk, OnOk, OnErr, IfSome, IfNone, IsErrOf, Contains};
ghost use Rattle.disk.specs.Calls.{Spares};
ghost use Rattle.object_journal.specs.declared.entry.Entry.{Entry as EntryS};
ghost use Rattle.object_journal.specs.declared.appending.Journal.{Journal as JournalS};
ghost use Rattle.object_journal.specs.Payload.{HasShortTexts, longest_payload, payload_of};
ghost use Rattle.object_journal.specs.Journal.{HasLawfulTexts, last_revision, most_keys};
ghost use Rattle.object_journal.specs.Standing.{chosen, appended, Writes};
ghost use Rattle.object_store.specs.declared.item.Item.{Item as ItemS};
ghost use Rattle.object_store.specs.Records.{AreInKeyOrder, IsChanged, HoldsKey};
ghost use Rattle.object_store.specs.Stores.{HaveLawfulTexts, Recalls, HasEntries, IsFull, IsPutOf, IsRemovalOf, MayCommit, LeavesRecords};

use crate::item::Item;
use crate::places::{change, created_in};
use crate::ready::{Ready, ReadyFault, ready_of};
use disk::{Disk, Failed};
use key_order::held;
use minor_version::Blob;
use object_journal::{Change, Entry, Journal, Key, LAST_REVISION, MOST_KEYS};
use std::alloc::Global;
use std::marker::Model;

/// The records of a journal, by key.
#[derive(Debug, Drop)]
pub struct Store {
    pub(crate) items: Vec<Item>,
    pub(crate) journal: Journal,
    // For how many more records a ready call took room.
    pub(crate) spare: usize,
}

impl Model for Store {
    ghost use Rattle.std.specs.Prelude.{◌+◌, ◌≤◌, vec_len};
    ghost use Rattle.std.specs.Vec.{vec_capacity};
    ghost use Rattle.object_store.specs.Records.{AreInKeyOrder};
    ghost use Rattle.object_store.specs.Stores.{StoreRecord, HaveLawfulTexts};

    ghost Value = { StoreRecord };

    ghost view = { λ s. record { items = s.items.items; journal = s.journal; spare = s.spare } };

    ghost invariant = { λ s. record {
      ordered : AreInKeyOrder s.items.items;
      texts : HaveLawfulTexts s.items.items;
      room : 1 ≤ s.spare → vec_len s.items + 1 ≤ vec_capacity s.items;
    } };
}

// Whether no put of the key may follow.
fn is_full(items: &[Item], revision: u64, key: &Key) -> bool
    requires { AreInKeyOrder items.now }
    ensures { IsTrue result ↔ IsFull items.now revision key.now }
{
    revision >= LAST_REVISION || (items.len() >= MOST_KEYS && held(items, key).is_none())
}

fn next_put(items: &[Item], revision: u64, key: Key, body: Blob) -> Entry
    requires ordered { AreInKeyOrder items.now }
    requires fits { revision < last_revision }
    ensures { IsPutOf items.now revision key body result }
{
    let revision = revision + 1;
    let created = created_in(items, &key, revision);
    Entry {
        key,
        revision,
        change: Change::Put { created, body },
    }
}

// The texts of the key are UTF-8. Nothing is computed here.
fn know_texts(key: &Key)
    requires { HasShortTexts key.now }
    ensures { HasLawfulTexts key.now }
{
    let _group = key.group.as_str();
    let _resource = key.resource.as_str();
    let _namespace = key.namespace.as_str();
    let _name = key.name.as_str();
}

impl Store {
    /// The records, in key order.
    pub fn items(&self) -> &[Item]
        ensures items { result.now ≡ self.now.items }
        ensures ordered { AreInKeyOrder self.now.items }
        ensures texts { HaveLawfulTexts self.now.items }
    {
        self.items.as_slice()
    }

    /// The key's record.
    pub fn get(&self, key: &Key) -> Option<&Item>
        ensures some { IfSome result (λ r. Contains self.now.items r.now × (r.now.key ≡ key.now)) }
        ensures none { IfNone result (¬ HoldsKey self.now.items key.now) }
    {
        held(self.items.as_slice(), key)
    }

    /// The greatest of the base and the revisions of its entries.
    pub fn revision(&self) -> u64
        ensures { result ≡ self.now.journal.revision }
    {
        self.journal.revision()
    }

    /// Whether the disk failed in a commit. No other may follow then.
    pub fn has_ended(&self) -> bool
        ensures { result ≡ self.now.journal.ended }
    {
        self.journal.has_ended()
    }
}

impl Store {
    // Makes the entry ready, and takes the room that its commit needs.
    fn make_ready(&mut self, alloc: Global, entry: Entry) -> Result<Ready, ReadyFault>
        requires { HasShortTexts entry.key }
        ensures ok { IfOk result (λ e. e ≡ entry) }
        ensures within { OnOk result (length (payload_of entry) ≤ longest_payload) }
        ensures spare { OnOk result (self.new ≡ record self.old { spare = 1 }) }
        ensures full { ¬ IsErrOf result ReadyFault.Full }
        ensures too_long { IsErrOf result ReadyFault.TooLong
            ↔ (longest_payload < length (payload_of entry)) }
        ensures err { OnErr result (self.new ≡ self.old) }
    {
        let ready = ready_of(alloc, entry)?;
        let Ok(()) = self.items.reserve(1) else {
            return Err(ReadyFault::Memory);
        };
        self.spare = 1;
        Ok(ready)
    }

    /// Makes a put of the key ready. The store hasn't ended. Each text of the key has at most 65,535 bytes. `Full` comes
    /// exactly where the key isn't held and 4,096 are, or where the revision is the last one; else `TooLong` exactly where
    /// the entry has no frame. All memory that the commit needs is taken.
    pub fn ready_put(&mut self, alloc: Global, key: Key, body: Blob) -> Result<Ready, ReadyFault>
        requires going { self.old.journal.ended ≡ false }
        requires short { HasShortTexts key }
        ensures ok { IfOk result (λ e. IsPutOf self.old.items self.old.journal.revision key body e) }
        ensures may { IfOk result (λ e. (entries : List EntryS) → Recalls self.old entries
            → MayCommit self.old entries e) }
        ensures spare { OnOk result (self.new ≡ record self.old { spare = 1 }) }
        ensures full { IsErrOf result ReadyFault.Full
            ↔ IsFull self.old.items self.old.journal.revision key }
        ensures too_long { (e : EntryS) → IsPutOf self.old.items self.old.journal.revision key body e
            → IsErrOf result ReadyFault.TooLong ↔ ((¬ IsFull self.old.items self.old.journal.revision key)
            × (longest_payload < length (payload_of e))) }
        ensures err { OnErr result (self.new ≡ self.old) }
    {
        let revision = self.journal.revision();
        if is_full(self.items.as_slice(), revision, &key) {
            return Err(ReadyFault::Full);
        }
        know_texts(&key);
        let entry = next_put(self.items.as_slice(), revision, key, body);
        self.make_ready(alloc, entry)
    }

    /// Makes a removal of the key, which is held, ready. The store hasn't ended. `Full` comes exactly where the revision is
    /// the last one. All memory that the commit needs is taken.
    pub fn ready_removal(&mut self, alloc: Global, key: Key) -> Result<Ready, ReadyFault>
        requires going { self.old.journal.ended ≡ false }
        requires held { HoldsKey self.old.items key }
        ensures ok { IfOk result (λ e. IsRemovalOf self.old.journal.revision key e) }
        ensures may { IfOk result (λ e. (entries : List EntryS) → Recalls self.old entries
            → MayCommit self.old entries e) }
        ensures spare { OnOk result (self.new ≡ record self.old { spare = 1 }) }
        ensures full { IsErrOf result ReadyFault.Full ↔ (last_revision ≤ self.old.journal.revision) }
        ensures too_long { ¬ IsErrOf result ReadyFault.TooLong }
        ensures err { OnErr result (self.new ≡ self.old) }
    {
        let revision = self.journal.revision();
        if revision >= LAST_REVISION {
            return Err(ReadyFault::Full);
        }
        let entry = Entry {
            key,
            revision: revision + 1,
            change: Change::Removal,
        };
        self.make_ready(alloc, entry)
    }

    /// Puts the ready entry into the journal and makes its change: a put sets its key, a removal deletes it. Answers the
    /// new revision. Where the disk fails, the store has ended. No memory is taken.
    pub fn commit<D: Disk>(&mut self, ready: Ready, disk: &mut D) -> Result<u64, Failed>
        requires spare { self.old.spare ≡ 1 }
        requires may { (entries : List EntryS)
            × HasEntries D.tells (D.held disk.old) (D.pending disk.old) self.old entries
            × MayCommit self.old entries ready }
        ensures ok { IfOk result (λ revision. revision ≡ ready.revision) }
        ensures changed { OnOk result (IsChanged self.old.items ready self.new.items) }
        ensures revision { OnOk result (self.new.journal.revision ≡ ready.revision) }
        ensures base { self.new.journal.base ≡ self.old.journal.base }
        ensures going { OnOk result (self.new.journal.ended ≡ false) }
        ensures stands { OnOk result ((entries : List EntryS)
            → HasEntries D.tells (D.held disk.old) (D.pending disk.old) self.old entries → MayCommit self.old entries ready
            → HasEntries D.tells (D.held disk.new) (D.pending disk.new) self.new (entries ++ ready ∷ [])) }
        ensures failed { OnErr result (self.new ≡ record self.old {
          journal = record self.old.journal { ended = true };
          spare = 0;
        }) }
        ensures spare { self.new.spare ≡ 0 }
        ensures written { D.tells → OnOk result (D.held disk.new chosen
            ≡ appended (D.held disk.old chosen) self.old.journal.end ready) }
        ensures writes { D.tells → Writes D.clock D.may_leave D.held D.pending disk.old disk.new (IsOk result)
            (LeavesRecords (D.pending disk.old) self.old ready) }
        ensures spares { Spares D.beside D.faults disk.old disk.new (IsErr result) }
    {
        self.spare = 0;
        self.journal.append(ready.framed(), disk)?;
        let entry = ready.into_entry();
        let revision = entry.revision;
        change(&mut self.items, entry);
        Ok(revision)
    }
}
