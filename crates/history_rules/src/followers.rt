//! By when the versions deprecated in favour of another are forgotten, in one pass.
ghost use Rattle.std.specs.Prelude.{◌↔◌, ◌≤◌, ℕ, List, [], ◌∷◌, ◌++◌, IsTrue, IfOk, OnOk, IfSome, IsSomeAnd};
ghost use Rattle.lifecycle.specs.declared.entry.ApiEntry.{ApiEntry as TheEntry};
ghost use Rattle.schemas.specs.ApiRules.{name_of, IsForgotten};
ghost use Rattle.history_rules.specs.Dates.{HasEarliest};
ghost use Rattle.history_rules.specs.Followers.{HasFollowers, PutsLater};

use crate::dates::Event;
use basis::{Memory, NameMap, put, value_of};
use lifecycle::{ApiChange, ApiEntry};
use minor_version::{Minor, Text};
use std::alloc::Global;
use std::collections::BTreeMap;

/// For a version the release by which all versions deprecated in its favour are forgotten, or `None` where one isn't.
pub type Followers<'a> = NameMap<'a, Option<Minor>>;

/// The later of the date and a date that may be there already, where neither is missing.
fn later(known: Option<Option<Minor>>, date: Option<Minor>) -> Option<Minor>
    ensures { (e : ℕ)
        → IsSomeAnd result (λ d. d ≤ e)
        ↔ (IfSome known (λ k. IsSomeAnd k (λ d. d ≤ e)) × IsSomeAnd date (λ d. d ≤ e)) }
{
    match (known, date) {
        (None, date) => date,
        (Some(Some(known)), Some(date)) => Some(known.max(date)),
        _ => None,
    }
}

fn put_later<'a>(
    followers: &mut Followers<'a>,
    entry: &'a ApiEntry,
    replacement: &'a Text,
    date: Option<Minor>,
) -> Result<(), Memory>
    ensures { OnOk result (PutsLater entry.now replacement.now date followers.old followers.new) }
{
    let group = entry.group.bytes();
    let version = replacement.bytes();
    let resource = entry.resource.bytes();
    let latest = later(value_of(followers, group, version, resource), date);
    put(followers, group, version, resource, latest)
}

/// When the entry's version is forgotten.
fn forgotten_in<'a>(forgotten: &NameMap<'a, Minor>, entry: &'a ApiEntry) -> Option<Minor>
    ensures { (all : List TheEntry) (e : ℕ) → HasEarliest Event.Forgetting all forgotten.now
        → IsSomeAnd result (λ d. d ≤ e)
        ↔ IsForgotten all (name_of entry.now.group entry.now.version entry.now.resource) e }
{
    let group = entry.group.bytes();
    let version = entry.version.bytes();
    let resource = entry.resource.bytes();
    value_of(forgotten, group, version, resource)
}

fn take_in<'a>(
    followers: &mut Followers<'a>,
    forgotten: &NameMap<'a, Minor>,
    entry: &'a ApiEntry,
) -> Result<(), Memory>
    ensures { OnOk result ((all entries : List TheEntry)
        → HasEarliest Event.Forgetting all forgotten.now
        → HasFollowers all entries followers.old
        → HasFollowers all (entries ++ entry.now ∷ []) followers.new) }
{
    match &entry.change {
        ApiChange::Deprecated { replacement, .. } => {
            put_later(
                followers,
                entry,
                replacement,
                forgotten_in(forgotten, entry),
            )
        }
        _ => Ok(()),
    }
}

/// For each version when those deprecated in its favour are forgotten.
pub fn follow<'a>(alloc: Global, entries: &'a [ApiEntry]) -> Result<Followers<'a>, Memory>
    ensures { IfOk result (HasFollowers entries.now entries.now) }
{
    let forgotten = Event::Forgetting.earliest(alloc, entries)?;
    let mut followers: Followers<'a> = BTreeMap::new(alloc);
    for entry in entries {
        take_in(&mut followers, &forgotten, entry)?;
    }
    Ok(followers)
}

/// Whether the versions that are dated so are all forgotten at or before the release.
pub fn are_by(latest: Option<Option<Minor>>, e: Minor) -> bool
    ensures { IsTrue result ↔ IfSome latest (λ date. IsSomeAnd date (λ d. d ≤ e)) }
{
    match latest {
        None => true,
        Some(None) => false,
        Some(Some(date)) => date <= e,
    }
}
