//! Records by their keys, and what an entry changes of them.
ghost use Rattle.std.specs.Prelude.{◌+◌, ◌≤◌, vec_len};
ghost use Rattle.std.specs.Vec.{vec_capacity};
ghost use Rattle.object_store.specs.Records.{AreInKeyOrder, IsChanged};
ghost use Rattle.object_store.specs.Stores.{IsCreated};

use crate::item::Item;
use key_order::{held, put, take_out};
use object_journal::{Change, Entry, Key};

/// The revision at which the key was created, where the next revision would be this one.
pub(crate) fn created_in(items: &[Item], key: &Key, next: u64) -> u64
    requires { AreInKeyOrder items.now }
    ensures { IsCreated items.now key.now next result }
{
    match held(items, key) {
        Some(item) => item.created,
        None => next,
    }
}

/// Makes the entry's change. There is room for one more record, so no memory is taken.
pub(crate) fn change(items: &mut Vec<Item>, entry: Entry)
    requires ordered { AreInKeyOrder items.old.items }
    requires room { vec_len items.old + 1 ≤ vec_capacity items.old }
    ensures { IsChanged items.old.items entry items.new.items }
{
    let Entry {
        key,
        revision,
        change,
    } = entry;
    match change {
        Change::Put { created, body } => {
            let item = Item {
                key,
                revision,
                created,
                body,
            };
            put(items, item);
        }
        Change::Removal => take_out(items, &key),
    }
}
