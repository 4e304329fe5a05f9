//! Objects in a list that is made at the first room.
ghost use Rattle.std.specs.Prelude.{◌≡◌, ◌+◌, ◌-◌, ◌^◌, ◌<◌, Some, None};
ghost use Rattle.key_order.specs.Order.{HoldsKey, IsChanged as IsKeyChanged};
ghost use Rattle.object_state.specs.declared.object.Object.{Object as ObjectS};
ghost use Rattle.object_state.specs.Objects.{AreInKeyOrder, HasKey, IsChanged};
ghost use Rattle.object_state.specs.Room.{objects_in, HasRoom};

use crate::object::{Change, Stored};
use key_order::{put, take_out};
use object_journal::Key;

// Puts the object, for which there is room where its key is new, and answers how many records there are then.
fn put_in(objects: &mut Option<Vec<Stored>>, records: u64, stored: Stored) -> u64
    requires order { AreInKeyOrder (objects_in objects.old) }
    requires room { ¬ HoldsKey (λ s. s.key) (objects_in objects.old) stored.key
        → HasRoom objects.old }
    requires counted { records + 1 < 2 ^ 64 }
    ensures changed { IsKeyChanged (λ s. s.key)
        (objects_in objects.old) stored.key (Some stored) (objects_in objects.new) }
    ensures comes { ¬ HoldsKey (λ s. s.key) (objects_in objects.old) stored.key
        → result ≡ records + 1 }
    ensures stays { HoldsKey (λ s. s.key) (objects_in objects.old) stored.key → result ≡ records }
{
    let Some(objects) = objects else {
        return records;
    };
    if put(objects, stored) {
        records + 1
    } else {
        records
    }
}

// Takes out what is under the key.
fn take_from(objects: &mut Option<Vec<Stored>>, key: &Key)
    requires { AreInKeyOrder (objects_in objects.old) }
    ensures { IsKeyChanged (λ s. s.key)
        (objects_in objects.old) key.now None (objects_in objects.new) }
{
    if let Some(objects) = objects {
        take_out(objects, key);
    }
}

/// Makes the change, for which there is room, and answers how many records there are then.
pub(crate) fn make(objects: &mut Option<Vec<Stored>>, records: u64, change: Change) -> u64
    requires order { AreInKeyOrder (objects_in objects.old) }
    requires room { ¬ HasKey (objects_in objects.old) change.key → HasRoom objects.old }
    requires counted { records + 1 < 2 ^ 64 }
    ensures changed { IsChanged (objects_in objects.old) change (objects_in objects.new) }
    ensures comes { (o : ObjectS) → change.object ≡ Some o
        → ¬ HasKey (objects_in objects.old) change.key → result ≡ records + 1 }
    ensures stays { (o : ObjectS) → change.object ≡ Some o
        → HasKey (objects_in objects.old) change.key → result ≡ records }
    ensures goes { change.object ≡ None → result ≡ records - 1 }
{
    let Change { key, object } = change;
    match object {
        Some(object) => put_in(objects, records, Stored { key, object }),
        None => {
            take_from(objects, &key);
            records.saturating_sub(1)
        }
    }
}
