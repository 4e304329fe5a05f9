//! Maps by names of three parts.
ghost use Rattle.std.specs.Prelude.{◌≡◌, ℕ, List, [], None, OnOk, OnErr, cond};
ghost use Rattle.std.specs.BTreeMap.{IsUnchanged};
ghost use Rattle.basis.specs.NameMap.{value_at, is_same_name};

use crate::memory::Memory;
use std::collections::BTreeMap;

/// A map by names of three parts.
pub type NameMap<'a, V> = BTreeMap<(&'a [u8], &'a [u8], &'a [u8]), V>;

/// The value at the name.
pub fn value_of<'a, V: Copy>(
    map: &NameMap<'a, V>,
    a: &'a [u8],
    b: &'a [u8],
    c: &'a [u8],
) -> Option<V>
    ensures { result ≡ value_at map.now a.now b.now c.now }
{
    map.get(&(a, b, c)).copied()
}

/// Puts the value at the name. Where memory runs out, the value is dropped and the map stays.
pub fn put<'a, V: Drop>(
    map: &mut NameMap<'a, V>,
    a: &'a [u8],
    b: &'a [u8],
    c: &'a [u8],
    value: V,
) -> Result<(), Memory>
    ensures ok { OnOk result ((x y z : List ℕ) → value_at map.new x y z ≡ cond (is_same_name a.now b.now c.now x y z) (Some value) (value_at map.old x y z)) }
    ensures err { OnErr result (IsUnchanged map.old map.new) }
{
    match map.insert((a, b, c), value) {
        Ok(_) => Ok(()),
        Err(_) => Err(Memory),
    }
}
