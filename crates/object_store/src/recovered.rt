//! The records that entries leave.
ghost use Rattle.std.specs.Prelude.{◌≡◌, List, map, IfOk};
ghost use Rattle.std.specs.BTreeMap.{IsOrdered};
ghost use Rattle.object_journal.specs.declared.entry.Entry.{Entry as EntryS};
ghost use Rattle.object_journal.specs.KeyOrder.{by_key};
ghost use Rattle.object_store.specs.Records.{AreRecords};
ghost use Rattle.object_store.specs.Left.{AreLeft, item_at};

use crate::item::Item;
use basis::Memory;
use minor_version::Blob;
use object_journal::{Change, Entry, Gather, Key};
use std::alloc::Global;
use std::collections::BTreeMap;

/// What is held of a key.
#[derive(Debug, Drop)]
pub(crate) struct Held {
    pub revision: u64,
    pub created: u64,
    pub body: Blob,
}

/// What is held of each key.
#[derive(Debug, Drop)]
pub(crate) struct Recovered {
    held: BTreeMap<Key, Held>,
}

impl Gather for Recovered {
    ghost is_of = { λ recovered entries. AreLeft recovered.held entries };

    fn none(alloc: Global) -> Self {
        Recovered {
            held: BTreeMap::new(alloc),
        }
    }

    fn take_in(&mut self, _alloc: Global, entry: Entry) -> Result<(), Memory> {
        let Entry {
            key,
            revision,
            change,
        } = entry;
        match change {
            Change::Put { created, body } => {
                let put = Held {
                    revision,
                    created,
                    body,
                };
                self.held.insert(key, put)?;
            }
            Change::Removal => {
                self.held.remove(&key);
            }
        }
        Ok(())
    }
}

impl Recovered {
    /// The records that the entries leave, in key order.
    pub(crate) fn listed(self, alloc: Global) -> Result<Vec<Item>, Memory>
        ensures { IfOk result (λ v. (entries : List EntryS) → AreLeft self.held entries
            → AreRecords entries v.items) }
    {
        listed(alloc, self.held)
    }
}

fn listed(alloc: Global, held: BTreeMap<Key, Held>) -> Result<Vec<Item>, Memory>
    ensures items { IfOk result (λ v. v.items ≡ map item_at held.entries) }
    ensures ordered { IsOrdered by_key held }
{
    let items = held.into_iter().map(|(key, held)| Item {
        key,
        revision: held.revision,
        created: held.created,
        body: held.body,
    });
    Ok(items.collect(alloc)?)
}
