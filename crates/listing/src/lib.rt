//! Entries listed by names of three parts, so that those of one name are found without a pass over all.
#![tactic(auto)]

ghost use Rattle.std.specs.Prelude.{◌≡◌, ◌++◌, ℕ, Bool, List, [], ◌∷◌, OnOk, OnErr, IfOk, cond, filter};
ghost use Rattle.basis.specs.NameMap.{is_same_name};
ghost use Rattle.listing.specs.Listing.{lent_in, listed_at, name_of, Name, Names, Tells, IsListing};

use basis::{Memory, NameMap, put};
use std::alloc::Global;
use std::collections::BTreeMap;

mod keys;

pub use keys::{resource_of_field, version_of_spell};

/// Entries listed by names of three parts.
pub type Listing<'a, E> = NameMap<'a, Vec<&'a E>>;

/// The three parts of a name.
pub type Parts<'a> = (&'a [u8], &'a [u8], &'a [u8]);

/// The entries listed at the name, if there are any.
pub fn listed<'m, 'a, E>(
    listing: &'m Listing<'a, E>,
    a: &'a [u8],
    b: &'a [u8],
    c: &'a [u8],
) -> Option<&'m Vec<&'a E>>
    ensures { lent_in result ≡ listed_at listing.now a.now b.now c.now }
{
    listing.get(&(a, b, c))
}

/// Lists one more entry at the name, behind those that are listed there. Where memory runs out, what is listed stays.
pub fn add<'a, E>(
    alloc: Global,
    listing: &mut Listing<'a, E>,
    a: &'a [u8],
    b: &'a [u8],
    c: &'a [u8],
    entry: &'a E,
) -> Result<(), Memory>
    ensures puts { OnOk result ((x y z : List ℕ) → let before = listed_at listing.old x y z in
        listed_at listing.new x y z ≡ cond (is_same_name a.now b.now c.now x y z) (before ++ entry.now ∷ []) before) }
    ensures grows { OnOk result ((named : E → Name) (entries : List E) → named entry.now ≡ name_of a.now b.now c.now
        → IsListing named entries listing.old → IsListing named (entries ++ entry.now ∷ []) listing.new) }
    ensures err { OnErr result ((x y z : List ℕ) → listed_at listing.new x y z ≡ listed_at listing.old x y z) }
{
    if let Some(items) = listing.get_mut(&(a, b, c)) {
        return match items.push(entry) {
            Ok(()) => Ok(()),
            Err(_) => Err(Memory),
        };
    }
    let mut items = Vec::new(alloc);
    match items.push(entry) {
        Ok(()) => put(listing, a, b, c, items),
        Err(_) => Err(Memory),
    }
}

/// The entries that are kept, each listed at the name that `name` gives it.
pub fn list_those_by<'a, E, K: Fn(&'a E) -> bool, F: Fn(&'a E) -> Parts<'a>>(
    alloc: Global,
    entries: &'a [E],
    kept: K,
    name: F,
) -> Result<Listing<'a, E>, Memory>
    requires tells { K.IsAlwaysCallable kept }
    requires names { F.IsAlwaysCallable name }
    ensures { IfOk result (λ listing. (test : E → Bool) (named : E → Name)
        → Tells (K.post kept) test → Names (F.post name) named → IsListing named (filter test entries.now) listing) }
{
    let mut listing: Listing<'a, E> = BTreeMap::new(alloc);
    for entry in entries {
        if !kept(entry) {
            continue;
        }
        let (a, b, c) = name(entry);
        match add(alloc, &mut listing, a, b, c, entry) {
            Ok(()) => {}
            Err(Memory) => return Err(Memory),
        }
    }
    Ok(listing)
}

/// The entries, each listed at the name that `name` gives it.
pub fn list_by<'a, E, F: Fn(&'a E) -> Parts<'a>>(
    alloc: Global,
    entries: &'a [E],
    name: F,
) -> Result<Listing<'a, E>, Memory>
    requires { F.IsAlwaysCallable name }
    ensures { IfOk result (λ listing. (named : E → Name)
        → Names (F.post name) named → IsListing named entries.now listing) }
{
    list_those_by(alloc, entries, |_| true, name)
}
