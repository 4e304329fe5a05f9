//! Elements by their keys.
ghost use Rattle.std.specs.Prelude.{◌≡◌, ◌↔◌, ◌+◌, ◌≤◌, vec_len, Some, None, IsTrue, IfOk, IfErr, IfSome, IfNone, Contains};
ghost use Rattle.std.specs.Vec.{vec_capacity};
ghost use Rattle.object_journal.specs.declared.key.Key.{Key as KeyS};
ghost use Rattle.key_order.specs.Order.{AreInKeyOrder, HoldsKey, IsPlaceOf, IsGapOf, IsChanged};

use object_journal::Key;

/// What has a key.
pub trait Keyed {
    /// The key, as contracts see it.
    ghost key_of: { Self → KeyS };

    /// The key.
    fn key(&self) -> &Key
        ensures { result.now ≡ key_of self.now };
}

/// Where the element of the key stands, or would stand. The elements are in key order.
pub fn place_of<T: Keyed>(items: &[T], key: &Key) -> Result<usize, usize>
    requires { AreInKeyOrder T.key_of items.now }
    ensures place { IfOk result (IsPlaceOf T.key_of items.now key.now) }
    ensures gap { IfErr result (IsGapOf T.key_of items.now key.now) }
{
    items.binary_search_by(|item| item.key().cmp(key))
}

/// The element of the key. The elements are in key order.
pub fn held<'a, T: Keyed>(items: &'a [T], key: &Key) -> Option<&'a T>
    requires { AreInKeyOrder T.key_of items.now }
    ensures some { IfSome result (λ x. Contains items.now x.now × (T.key_of x.now ≡ key.now)) }
    ensures none { IfNone result (¬ HoldsKey T.key_of items.now key.now) }
{
    match place_of(items, key) {
        Ok(place) => Some(&items[place]),
        Err(_) => None,
    }
}

/// Puts the element over the one of its key, or between the others, and answers whether its key is new. The elements are
/// in key order, and there is room for one more where the key is new, so no memory is taken.
pub fn put<T: Keyed + Drop>(items: &mut Vec<T>, item: T) -> bool
    requires ordered { AreInKeyOrder T.key_of items.old.items }
    requires room { ¬ HoldsKey T.key_of items.old.items (T.key_of item)
        → vec_len items.old + 1 ≤ vec_capacity items.old }
    ensures changed { IsChanged T.key_of
        items.old.items (T.key_of item) (Some item) items.new.items }
    ensures is_new { IsTrue result ↔ (¬ HoldsKey T.key_of items.old.items (T.key_of item)) }
{
    match place_of(items, item.key()) {
        Ok(place) => {
            items[place] = item;
            false
        }
        Err(place) => {
            let _inserted = items.insert(place, item);
            true
        }
    }
}

/// Takes the element of the key out, if there is one. The elements are in key order.
pub fn take_out<T: Keyed + Drop>(items: &mut Vec<T>, key: &Key)
    requires { AreInKeyOrder T.key_of items.old.items }
    ensures { IsChanged T.key_of items.old.items key.now None items.new.items }
{
    if let Ok(place) = place_of(items, key) {
        items.remove(place);
    }
}
