//! The earliest dates of the changes of versions, so that a version's dates are found without a pass over all entries.
ghost use Rattle.std.specs.Prelude.{◌≡◌, ◌↔◌, ◌≤◌, ◌⊎◌, ℕ, IsTrue, IfOk, OnOk, IsSomeAnd};
ghost use Rattle.history_rules.specs.Dates.{HasEarliest, PutsEarlier};

use crate::followers::{Followers, are_by, follow};
use basis::{Memory, NameMap, put, value_of};
use lifecycle::{ApiChange, ApiEntry};
use minor_version::Minor;
use std::alloc::Global;
use std::collections::BTreeMap;
use std::marker::Model;

/// A kind of change whose earliest date is looked up.
#[derive(Clone, Copy)]
pub enum Event {
    Introduction,
    Removal,
    Forgetting,
}

impl Event {
    ghost use Rattle.std.specs.Prelude.{List, [], ◌∷◌, ◌++◌};
    ghost use Rattle.lifecycle.specs.declared.entry.ApiEntry.{ApiEntry as TheEntry};
    ghost use Rattle.history_rules.specs.Dates.{IsEvent};

    fn is_of(self, change: &ApiChange) -> bool
        ensures { IsTrue result ↔ IsEvent self change.now }
    {
        match self {
            Event::Introduction => matches!(change, ApiChange::Introduced { .. }),
            Event::Removal => matches!(change, ApiChange::Removed),
            Event::Forgetting => matches!(change, ApiChange::Forgotten),
        }
    }

    /// Takes the entry into the map of this event's earliest dates.
    fn take_in<'a>(self, dates: &mut NameMap<'a, Minor>, entry: &'a ApiEntry) -> Result<(), Memory>
        ensures { OnOk result ((entries : List TheEntry) → HasEarliest self entries dates.old
            → HasEarliest self (entries ++ entry.now ∷ []) dates.new) }
    {
        if self.is_of(&entry.change) {
            put_earlier(dates, entry)
        } else {
            Ok(())
        }
    }

    /// For each version the earliest date of this event.
    pub fn earliest<'a>(
        self,
        alloc: Global,
        entries: &'a [ApiEntry],
    ) -> Result<NameMap<'a, Minor>, Memory>
        ensures { IfOk result (HasEarliest self entries.now) }
    {
        let mut dates: NameMap<'a, Minor> = BTreeMap::new(alloc);
        for entry in entries {
            self.take_in(&mut dates, entry)?;
        }
        Ok(dates)
    }
}

/// The earlier of the date and a date that may be there already.
fn earlier(known: Option<Minor>, date: Minor) -> Minor
    ensures { (e : ℕ) → (result ≤ e) ↔ (IsSomeAnd known (λ d. d ≤ e) ⊎ (date ≤ e)) }
{
    match known {
        Some(known) => known.min(date),
        None => date,
    }
}

fn put_earlier<'a>(dates: &mut NameMap<'a, Minor>, entry: &'a ApiEntry) -> Result<(), Memory>
    ensures { OnOk result (PutsEarlier entry.now dates.old dates.new) }
{
    let group = entry.group.bytes();
    let version = entry.version.bytes();
    let resource = entry.resource.bytes();
    let date = earlier(value_of(dates, group, version, resource), entry.since);
    put(dates, group, version, resource, date)
}

/// The entries of a history's versions, with an index of their dates. Contracts see the entries.
#[derive(Drop)]
pub struct Dates<'a> {
    entries: &'a [ApiEntry],
    introduced: NameMap<'a, Minor>,
    removed: NameMap<'a, Minor>,
    followers: Followers<'a>,
}

impl<'a> Model for Dates<'a> {
    ghost use Rattle.std.specs.Prelude.{List};
    ghost use Rattle.lifecycle.specs.declared.entry.ApiEntry.{ApiEntry as TheEntry};

    ghost Value = { List TheEntry };

    ghost use Rattle.history_rules.specs.DatesFields.{entries_of, IsIndex};

    ghost view = { entries_of };

    ghost invariant = { IsIndex };
}

impl<'a> Dates<'a> {
    ghost use Rattle.lifecycle.specs.Entry.{IsIntroduced, IsRemoved};
    ghost use Rattle.schemas.specs.ApiRules.{name_of, AreForgottenFirst};

    /// The index of the entries.
    pub fn new(alloc: Global, entries: &'a [ApiEntry]) -> Result<Self, Memory>
        ensures { IfOk result (λ dates. dates ≡ entries.now) }
    {
        let introduced = Event::Introduction.earliest(alloc, entries)?;
        let removed = Event::Removal.earliest(alloc, entries)?;
        let followers = follow(alloc, entries)?;
        Ok(Dates {
            entries,
            introduced,
            removed,
            followers,
        })
    }

    /// Whether the version is introduced at or before the release.
    pub fn is_introduced(
        &self,
        group: &'a [u8],
        version: &'a [u8],
        resource: &'a [u8],
        e: Minor,
    ) -> bool
        ensures { IsTrue result
            ↔ IsIntroduced self.now (name_of group.now version.now resource.now) e }
    {
        is_by(value_of(&self.introduced, group, version, resource), e)
    }

    /// Whether the version is removed at or before the release.
    pub fn is_removed(
        &self,
        group: &'a [u8],
        version: &'a [u8],
        resource: &'a [u8],
        e: Minor,
    ) -> bool
        ensures { IsTrue result
            ↔ IsRemoved self.now (name_of group.now version.now resource.now) e }
    {
        is_by(value_of(&self.removed, group, version, resource), e)
    }

    /// Whether each version deprecated in favour of the entry's is forgotten not later than the entry is dated.
    pub fn are_followers_forgotten(&self, entry: &'a ApiEntry) -> bool
        ensures { IsTrue result ↔ AreForgottenFirst self.now entry.now }
    {
        let group = entry.group.bytes();
        let version = entry.version.bytes();
        let resource = entry.resource.bytes();
        are_by(
            value_of(&self.followers, group, version, resource),
            entry.since,
        )
    }
}

fn is_by(date: Option<Minor>, e: Minor) -> bool
    ensures { IsTrue result ↔ IsSomeAnd date (λ d. d ≤ e) }
{
    match date {
        Some(date) => date <= e,
        None => false,
    }
}
