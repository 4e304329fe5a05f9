//! The entry of a change.
ghost use Rattle.std.specs.Prelude.{◌≡◌, ◌↔◌, ◌+◌, ◌<◌, ℕ, false, List, Some, IsTrue, IfOk, OnOk, OnErr};
ghost use Rattle.fields.specs.Fits.{Fits};
ghost use Rattle.fields.specs.Table.{AreLawful};
ghost use Rattle.fields.specs.declared.table.VersionTable.{VersionTable as TableS};
ghost use Rattle.object_journal.specs.Journal.{last_revision};
ghost use Rattle.object_journal.specs.Payload.{HasShortTexts};
ghost use Rattle.object_journal.specs.declared.entry.Entry.{Entry as EntryS};
ghost use Rattle.object_store.specs.Records.{HoldsKey};
ghost use Rattle.object_store.specs.Stores.{IsFull, IsCreated, IsPutOf as IsNextPut, IsRemovalOf, Recalls, MayCommit};
ghost use Rattle.release_view.specs.Later.{AreOfOneHistory};
ghost use Rattle.schemas.specs.Dated.{Dated};
ghost use Rattle.storage_version.specs.Kept.{IsPutOf, IsEntryOf};
ghost use Rattle.storage_version.specs.Standing.{IsLive, StandsFor};
ghost use Rattle.storage_version.specs.Storage.{storage_table_in};
ghost use Rattle.stored_change.specs.Changes.{IsStorable};

use basis::Memory;
use fields::VersionTable;
use minor_version::Blob;
use object_journal::Key;
use object_state::{Change, Object, State};
use object_store::{Ready, ReadyFault, Store};
use release_view::View;
use std::alloc::Global;
use storage_version::{encode_body, storage_for};

// Whether the length of each text of the key stands in two bytes.
fn is_short(key: &Key) -> bool
    ensures { IsTrue result ↔ HasShortTexts key.now }
{
    key.group.bytes().len() <= 65_535
        && key.resource.bytes().len() <= 65_535
        && key.namespace.bytes().len() <= 65_535
        && key.name.bytes().len() <= 65_535
}

// What a key or a body that is too long for the journal is told as. None is. A request's body has at most 65,536 bytes, a
// table at most 64 rows and a default at most 1,024 bytes, so a stored body is below the journal's 1,048,576; names in paths
// have at most 253 bytes, and those of groups and resources at most 63 in an accepted history.
fn never_too_long() -> Memory {
    Memory
}

// The next put of the key, which has room.
fn ready_body(alloc: Global, store: &mut Store, key: Key, body: Blob) -> Result<Ready, Memory>
    requires going { store.old.journal.ended ≡ false }
    requires room { ¬ IsFull store.old.items store.old.journal.revision key }
    ensures entry { IfOk result (IsNextPut store.old.items store.old.journal.revision key body) }
    ensures may { IfOk result (λ e. (entries : List EntryS) → Recalls store.old entries
        → MayCommit store.old entries e) }
    ensures spare { OnOk result (store.new ≡ record store.old { spare = 1 }) }
    ensures err { OnErr result (store.new ≡ store.old) }
{
    if !is_short(&key) {
        return Err(never_too_long());
    }
    match store.ready_put(alloc, key, body) {
        Ok(ready) => Ok(ready),
        Err(ReadyFault::Full) => unreachable!(),
        Err(ReadyFault::TooLong) => Err(never_too_long()),
        Err(ReadyFault::Memory) => Err(Memory),
    }
}

// The table of the version in which objects of the key's resource, whose kind is live, are stored.
fn table_for<'a>(view: &'a View, back: &'a View, key: &Key) -> &'a VersionTable
    requires one { (history : Dated) × AreOfOneHistory history back.now view.now }
    requires live { IsLive view.now.versions key.now }
    ensures table { storage_table_in back.now.versions view.now.versions key.now.group
        key.now.resource ≡ Some result.now }
    ensures lawful { AreLawful result.now.rows }
{
    storage_for(view, back, key.group.bytes(), key.resource.bytes())
}

// The put of the object, which has room and the next revision, in its storage version.
fn ready_object(
    alloc: Global,
    view: &View,
    back: &View,
    store: &mut Store,
    key: &Key,
    object: &Object,
) -> Result<Ready, Memory>
    requires one { (history : Dated) × AreOfOneHistory history back.now view.now }
    requires going { store.old.journal.ended ≡ false }
    requires live { IsLive view.now.versions key.now }
    requires fits { (table : TableS) → storage_table_in back.now.versions view.now.versions
        key.now.group key.now.resource ≡ Some table → Fits table.rows object.now.fields }
    requires room { ¬ IsFull store.old.items store.old.journal.revision key.now }
    requires created { (created : ℕ) → IsCreated store.old.items key.now
        (store.old.journal.revision + 1) created → created ≡ object.now.created }
    requires next { object.now.revision ≡ store.old.journal.revision + 1 }
    ensures entry { IfOk result
        (IsPutOf back.now.versions view.now.versions key.now object.now) }
    ensures may { IfOk result (λ e. (entries : List EntryS) → Recalls store.old entries
        → MayCommit store.old entries e) }
    ensures spare { OnOk result (store.new ≡ record store.old { spare = 1 }) }
    ensures err { OnErr result (store.new ≡ store.old) }
{
    let table = table_for(view, back, key);
    let body = encode_body(alloc, table, &object.fields)?;
    let key = key.duplicate(alloc)?;
    ready_body(alloc, store, key, body)
}

// The next removal of the key, which is held.
fn ready_removal(alloc: Global, store: &mut Store, key: &Key) -> Result<Ready, Memory>
    requires going { store.old.journal.ended ≡ false }
    requires held { HoldsKey store.old.items key.now }
    requires more { store.old.journal.revision < last_revision }
    ensures entry { IfOk result (IsRemovalOf store.old.journal.revision key.now) }
    ensures may { IfOk result (λ e. (entries : List EntryS) → Recalls store.old entries
        → MayCommit store.old entries e) }
    ensures spare { OnOk result (store.new ≡ record store.old { spare = 1 }) }
    ensures err { OnErr result (store.new ≡ store.old) }
{
    let key = key.duplicate(alloc)?;
    match store.ready_removal(alloc, key) {
        Ok(ready) => Ok(ready),
        Err(ReadyFault::Full | ReadyFault::TooLong) => unreachable!(),
        Err(ReadyFault::Memory) => Err(Memory),
    }
}

/// The entry of the change, ready for a commit: it puts the object, in its storage version, or removes the key. The store,
/// which hasn't ended, has the records of the state. All memory that the commit needs is taken.
pub fn ready_change(
    alloc: Global,
    view: &View,
    back: &View,
    store: &mut Store,
    state: &State,
    change: &Change,
) -> Result<Ready, Memory>
    requires one { (history : Dated) × AreOfOneHistory history back.now view.now }
    requires going { store.old.journal.ended ≡ false }
    requires stands { StandsFor store.old.items store.old.journal.revision view.now.versions state.now.state }
    requires storable { IsStorable back.now view.now state.now.state change.now }
    ensures entry { IfOk result
        (IsEntryOf back.now.versions view.now.versions store.old.journal.revision change.now) }
    ensures may { IfOk result (λ e. (entries : List EntryS) → Recalls store.old entries
        → MayCommit store.old entries e) }
    ensures spare { OnOk result (store.new ≡ record store.old { spare = 1 }) }
    ensures err { OnErr result (store.new ≡ store.old) }
{
    let _state = state;
    match &change.object {
        Some(object) => ready_object(alloc, view, back, store, &change.key, object),
        None => ready_removal(alloc, store, &change.key),
    }
}
