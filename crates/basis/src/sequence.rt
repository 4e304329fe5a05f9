ghost use Rattle.std.specs.Prelude.{◌≡◌, [], ◌∷◌, ◌++◌, OnOk, OnErr};

use crate::memory::Memory;
use std::alloc::Global;
use std::marker::Model;

/// A list, seen as the list of its items. The empty list takes no memory.
#[derive(Debug, Drop)]
pub struct Sequence<T> {
    // None until the first push, since a `Vec` is made with its allocator.
    items: Option<Vec<T>>,
}

impl<T> Model for Sequence<T> {
    ghost use Rattle.std.specs.Prelude.{List, []};
    ghost use Rattle.std.specs.Option.{option_map_or};
    ghost use Rattle.std.specs.Coded.{coded_list};

    ghost Value = { List T };

    ghost coded = { coded_list T.code };

    ghost view = { λ l. option_map_or (λ v. v.items) l.items [] };
}

impl<T> Sequence<T> {
    /// The empty list.
    pub fn new() -> Self
        ensures { result ≡ [] }
    {
        Sequence { items: None }
    }

    /// The items, in order.
    pub fn items(&self) -> &[T]
        ensures { result.now ≡ self.now }
    {
        match &self.items {
            Some(items) => items.as_slice(),
            None => &[],
        }
    }
}

impl<T: Drop> Sequence<T> {
    /// Appends an item. Where memory runs out, the item is dropped and the list stays.
    pub fn push(&mut self, alloc: Global, item: T) -> Result<(), Memory>
        ensures ok { OnOk result (self.new ≡ self.old ++ item ∷ []) }
        ensures err { OnErr result (self.new ≡ self.old) }
    {
        let mut items = match self.items.take() {
            Some(items) => items,
            None => Vec::new(alloc),
        };
        let pushed = items.push(item);
        self.items = Some(items);
        match pushed {
            Ok(()) => Ok(()),
            Err(_) => Err(Memory),
        }
    }
}
