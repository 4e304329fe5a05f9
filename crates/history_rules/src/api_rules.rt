//! The rules on versions of resources: for each, the number of the first entry that breaks it.
ghost use Rattle.std.specs.Prelude.{◌≡◌, ◌↔◌, List, [], IsTrue, IfOk, codes, length};
ghost use Rattle.std.specs.Option.{option_copied};
ghost use Rattle.lifecycle.specs.declared.entry.ApiEntry.{ApiEntry as TheEntry};
ghost use Rattle.schemas.specs.Places.{FindsFirst};
ghost use Rattle.schemas.specs.ApiRules.{previous_of_version, notice_of, HasLawfulName, IsNext, StandsInOrder, NamesItsKind, IsFairBetween, IsFairDeprecation, IsFairChange, DeprecatesFairly, IsPlanned, IsKept, KeepsPlan, IsLateAfter, IsForgottenLate, ForgetsLate};
ghost use Rattle.history_rules.specs.Previous.{AreLinked};
ghost use Rattle.history_rules.specs.KindsFields.{AreKindsOf};

use crate::dates::Dates;
use crate::kinds::Kinds;
use basis::Memory;
use lifecycle::{ApiChange, ApiEntry, Level, version_word};
use minor_version::{Minor, Text};
use std::alloc::Global;

/// For how many releases a removed version is still read.
const READABLE_RELEASES: u16 = 3;

fn is_next(previous: Option<&ApiEntry>, entry: &ApiEntry) -> bool
    ensures { IsTrue result
        ↔ IsNext (option_copied previous.entry) entry.now.since entry.now.change }
{
    match (&entry.change, previous) {
        (ApiChange::Introduced { .. }, None) => true,
        (ApiChange::Introduced { .. }, Some(_)) => false,
        (_, None) => false,
        (ApiChange::Deprecated { .. }, Some(y)) => {
            matches!(y.change, ApiChange::Introduced { .. }) && y.since < entry.since
        }
        (ApiChange::Removed, Some(y)) => {
            matches!(y.change, ApiChange::Deprecated { .. }) && y.since <= entry.since
        }
        (ApiChange::Forgotten, Some(y)) => {
            matches!(y.change, ApiChange::Removed) && y.since < entry.since
        }
    }
}

/// The first entry that isn't the next one of its version, in the order introduced, deprecated, removed, forgotten (HR6).
pub fn first_out_of_order(entries: &[ApiEntry], previous: &[Option<&ApiEntry>]) -> Option<u64>
    requires { AreLinked previous_of_version entries.now (length entries.now) previous.now }
    ensures { FindsFirst StandsInOrder entries.now result }
{
    for (i, entry) in entries.iter().enumerate() {
        if !is_next(previous[i], entry) {
            return Some(i as u64 + 1);
        }
    }
    None
}

fn is_core(group: &Text) -> bool
    ensures { IsTrue result ↔ (group.now ≡ []) }
{
    group.as_str().is_empty()
}

fn is_version_one(version: &Text) -> bool
    ensures { IsTrue result ↔ (version.now ≡ codes "v1") }
{
    version.as_str() == "v1"
}

fn has_core_version(entry: &ApiEntry) -> bool
    ensures { IsTrue result ↔ (entry.now.group ≡ [] → entry.now.version ≡ codes "v1") }
{
    if is_core(&entry.group) {
        is_version_one(&entry.version)
    } else {
        true
    }
}

fn has_lawful_name(entry: &ApiEntry) -> bool
    ensures { IsTrue result ↔ HasLawfulName entry.now }
{
    entry.resource.as_str() != "namespaces" && has_core_version(entry)
}

fn names_its_kind<'a>(kinds: &Kinds<'a>, entry: &'a ApiEntry) -> bool
    ensures { (earlier : List TheEntry) → AreKindsOf earlier kinds.now
        → IsTrue result ↔ NamesItsKind earlier entry.now }
{
    has_lawful_name(entry) && kinds.are_apart_from(entry)
}

/// The first entry that mixes up the kinds of its group, or has a name that a path can't have (HR7).
pub fn first_mixed_kind(alloc: Global, entries: &[ApiEntry]) -> Result<Option<u64>, Memory>
    ensures { IfOk result (FindsFirst NamesItsKind entries.now) }
{
    let mut kinds = Kinds::new(alloc);
    for (i, entry) in entries.iter().enumerate() {
        if !names_its_kind(&kinds, entry) {
            return Ok(Some(i as u64 + 1));
        }
        kinds.take_in(entry)?;
    }
    Ok(None)
}

fn notice(level: Level) -> u16
    ensures { result ≡ notice_of level }
{
    match level {
        Level::Ga | Level::Beta(_) => 3,
        Level::Alpha(_) => 0,
    }
}

fn is_fair_between<'a>(
    all: &Dates<'a>,
    entry: &'a ApiEntry,
    removal: Minor,
    replacement: &'a Text,
    own: Level,
    other: Level,
) -> bool
    ensures { IsTrue result ↔ IsFairBetween all.now entry.now removal replacement.now own other }
{
    entry.since.number() + notice(own) <= removal.number()
        && entry.version != *replacement
        && other.rank() <= own.rank()
        && all.is_introduced(
            entry.group.bytes(),
            replacement.bytes(),
            entry.resource.bytes(),
            entry.since,
        )
}

fn is_fair_deprecation<'a>(
    all: &Dates<'a>,
    entry: &'a ApiEntry,
    removal: Minor,
    replacement: &'a Text,
) -> bool
    ensures { IsTrue result ↔ IsFairDeprecation all.now entry.now removal replacement.now }
{
    let Some(own) = version_word(entry.version.bytes()) else {
        return false;
    };
    let Some(other) = version_word(replacement.bytes()) else {
        return false;
    };
    is_fair_between(all, entry, removal, replacement, own.level, other.level)
}

fn is_fair<'a>(all: &Dates<'a>, entry: &'a ApiEntry) -> bool
    ensures { IsTrue result ↔ IsFairChange all.now entry.now entry.now.change }
{
    match &entry.change {
        ApiChange::Deprecated {
            removal,
            replacement,
        } => is_fair_deprecation(all, entry, *removal, replacement),
        _ => true,
    }
}

/// The first deprecation that leaves too little time, or whose replacement doesn't stand in for the version (HR8).
pub fn first_unfair_deprecation<'a>(all: &Dates<'a>, entries: &'a [ApiEntry]) -> Option<u64>
    ensures { FindsFirst (DeprecatesFairly all.now) entries.now result }
{
    for (i, entry) in entries.iter().enumerate() {
        if !is_fair(all, entry) {
            return Some(i as u64 + 1);
        }
    }
    None
}

fn is_planned<'a>(all: &Dates<'a>, entry: &'a ApiEntry, plan: &'a ApiChange) -> bool
    ensures { IsTrue result ↔ IsPlanned all.now entry.now plan.now }
{
    match plan {
        ApiChange::Deprecated {
            removal,
            replacement,
        } => {
            entry.since == *removal
                && all.is_introduced(
                    entry.group.bytes(),
                    replacement.bytes(),
                    entry.resource.bytes(),
                    entry.since,
                )
                && !all.is_removed(
                    entry.group.bytes(),
                    replacement.bytes(),
                    entry.resource.bytes(),
                    entry.since,
                )
        }
        _ => false,
    }
}

fn is_kept<'a>(
    all: &Dates<'a>,
    last: Minor,
    previous: Option<&'a ApiEntry>,
    entry: &'a ApiEntry,
) -> bool
    ensures { IsTrue result
        ↔ IsKept all.now last (option_copied previous.entry) entry.now entry.now.change }
{
    match &entry.change {
        ApiChange::Deprecated { removal, .. } => {
            *removal > last
                || all.is_removed(
                    entry.group.bytes(),
                    entry.version.bytes(),
                    entry.resource.bytes(),
                    last,
                )
        }
        ApiChange::Removed => match previous {
            None => false,
            Some(y) => is_planned(all, entry, &y.change),
        },
        _ => true,
    }
}

/// The first removal that isn't as planned, or deprecation whose planned removal is missing (HR9).
pub fn first_unplanned<'a>(
    all: &Dates<'a>,
    last: Minor,
    entries: &'a [ApiEntry],
    previous: &[Option<&'a ApiEntry>],
) -> Option<u64>
    requires { AreLinked previous_of_version entries.now (length entries.now) previous.now }
    ensures { FindsFirst (KeepsPlan all.now last) entries.now result }
{
    for (i, entry) in entries.iter().enumerate() {
        if !is_kept(all, last, previous[i], entry) {
            return Some(i as u64 + 1);
        }
    }
    None
}

fn is_late(previous: Option<&ApiEntry>, entry: &ApiEntry) -> bool
    ensures { IsTrue result ↔ IsLateAfter (option_copied previous.entry) entry.now.since }
{
    match previous {
        None => false,
        Some(y) => {
            matches!(y.change, ApiChange::Removed)
                && y.since.number() + READABLE_RELEASES <= entry.since.number()
        }
    }
}

/// The first version that is forgotten too early (HR10).
pub fn first_early_forgetting<'a>(
    all: &Dates<'a>,
    entries: &'a [ApiEntry],
    previous: &[Option<&'a ApiEntry>],
) -> Option<u64>
    requires { AreLinked previous_of_version entries.now (length entries.now) previous.now }
    ensures { FindsFirst (ForgetsLate all.now) entries.now result }
{
    for (i, entry) in entries.iter().enumerate() {
        if !forgets_late(all, previous[i], entry) {
            return Some(i as u64 + 1);
        }
    }
    None
}

fn forgets_late<'a>(all: &Dates<'a>, previous: Option<&'a ApiEntry>, entry: &'a ApiEntry) -> bool
    ensures { IsTrue result
        ↔ IsForgottenLate all.now (option_copied previous.entry) entry.now entry.now.change }
{
    match &entry.change {
        ApiChange::Forgotten => is_late(previous, entry) && all.are_followers_forgotten(entry),
        _ => true,
    }
}
