//! What a server keeps.
ghost use Rattle.std.specs.Prelude.{◌≡◌, [], OnOk, OnErr, option_copied};
ghost use Rattle.object_state.specs.Objects.{AreInKeyOrder, Finds, objects_of, objects_inside};
ghost use Rattle.object_state.specs.State.{IsApplied, MayApply};

use crate::object::{Change, Object, Stored};
use crate::room::make;
use basis::Memory;
use key_order::{held, inside, of_resource};
use object_journal::Key;
use std::alloc::Global;
use std::marker::Model;

/// What a server keeps: objects by their keys, the revision of their store, and how many records that has, among them
/// those of kinds that the release doesn't know.
#[derive(Debug, Drop)]
pub struct State {
    // None until the first room, since a `Vec` is made with its allocator.
    objects: Option<Vec<Stored>>,
    revision: u64,
    records: u64,
    // For how many more objects there is room that was taken: 0 or 1.
    spare: usize,
}

impl Model for State {
    ghost use Rattle.std.specs.Prelude.{◌≤◌};
    ghost use Rattle.object_state.specs.Objects.{AreInKeyOrder};
    ghost use Rattle.object_state.specs.State.{StateRecord};
    ghost use Rattle.object_state.specs.Room.{objects_in, HasRoom};

    ghost Value = { StateRecord };

    ghost view = { λ s. record {
      state = record { objects = objects_in s.objects; revision = s.revision; records = s.records };
      spare = s.spare;
    } };

    ghost invariant = { λ s. record {
      order : AreInKeyOrder (objects_in s.objects);
      room : 1 ≤ s.spare → HasRoom s.objects;
    } };
}

impl State {
    /// The state of a store without records, at revision 0.
    pub fn new() -> Self
        ensures { result ≡ record {
          state = record { objects = []; revision = 0; records = 0 };
          spare = 0;
        } }
    {
        State {
            objects: None,
            revision: 0,
            records: 0,
            spare: 0,
        }
    }

    /// The state of these objects, which are in key order, at this revision of a store with so many records.
    pub fn made_of(objects: Vec<Stored>, revision: u64, records: u64) -> Self
        requires { AreInKeyOrder objects.items }
        ensures { result ≡ record {
          state = record { objects = objects.items; revision = revision; records = records };
          spare = 0;
        } }
    {
        State {
            objects: Some(objects),
            revision,
            records,
            spare: 0,
        }
    }

    /// The objects, in key order.
    pub fn objects(&self) -> &[Stored]
        ensures value { result.now ≡ self.now.state.objects }
        ensures order { AreInKeyOrder self.now.state.objects }
    {
        match &self.objects {
            Some(objects) => objects.as_slice(),
            None => &[],
        }
    }

    /// The object under the key.
    pub fn get(&self, key: &Key) -> Option<&Object>
        ensures { Finds self.now.state.objects key.now (option_copied result) }
    {
        match held(self.objects(), key) {
            Some(stored) => Some(&stored.object),
            None => None,
        }
    }

    /// The objects of the group and resource, in key order.
    pub fn of_resource(&self, group: &[u8], resource: &[u8]) -> &[Stored]
        ensures { result.now ≡ objects_of group.now resource.now self.now.state.objects }
    {
        of_resource(self.objects(), group, resource)
    }

    /// The objects of the group, resource and namespace, in key order.
    pub fn inside(&self, group: &[u8], resource: &[u8], namespace: &[u8]) -> &[Stored]
        ensures { result.now
            ≡ objects_inside group.now resource.now namespace.now self.now.state.objects }
    {
        inside(self.objects(), group, resource, namespace)
    }

    /// The revision of the store.
    pub fn revision(&self) -> u64
        ensures { result ≡ self.now.state.revision }
    {
        self.revision
    }

    /// How many records the store has.
    pub fn records(&self) -> u64
        ensures { result ≡ self.now.state.records }
    {
        self.records
    }
}

impl State {
    /// Takes room for one more object.
    pub fn reserve(&mut self, alloc: Global) -> Result<(), Memory>
        ensures ok { OnOk result (self.new ≡ record self.old { spare = 1 }) }
        ensures err { OnErr result (self.new ≡ self.old) }
    {
        let mut objects = match self.objects.take() {
            Some(objects) => objects,
            None => Vec::new(alloc),
        };
        let reserved = objects.reserve(1);
        self.objects = Some(objects);
        match reserved {
            Ok(()) => {
                self.spare = 1;
                Ok(())
            }
            Err(_) => Err(Memory),
        }
    }

    /// Makes the change, which is the next revision. A removal is of a key that is there; a new key has its room from
    /// `reserve`; the revision and the count of records are below 2^64 - 1. No memory is taken.
    pub fn apply(&mut self, change: Change)
        requires { MayApply self.old change }
        ensures applied { IsApplied self.old.state change self.new.state }
        ensures spare { self.new.spare ≡ 0 }
    {
        self.records = make(&mut self.objects, self.records, change);
        self.revision += 1;
        self.spare = 0;
    }
}
