//! What no release from the floor on needs, by name, so that no entry is compared with all the others.
ghost use Rattle.std.specs.Prelude.{◌≡◌, ◌++◌, ◌∷◌, [], ◌&&◌, nat_le, List, IfOk, OnOk};
ghost use Rattle.gate_spec.specs.Gates.{is_spec};
ghost use Rattle.gate_spec.specs.declared.entry.GateEntry.{GateEntry as TheGate};
ghost use Rattle.lifecycle.specs.Entry.{named};
ghost use Rattle.lifecycle.specs.declared.entry.ApiEntry.{ApiEntry as TheApi};
ghost use Rattle.history_fold.specs.Folded.{version_of};
ghost use Rattle.history_fold.specs.ByName.{has_later, has_version, HasLatestSpecs, HasForgotten};

use basis::{Memory, NameMap, put, value_of};
use fields::Spell;
use gate_spec::{GateChange, GateEntry};
use lifecycle::{ApiEntry, ApiName};
use minor_version::Minor;
use std::alloc::Global;
use std::collections::BTreeMap;

/// For each gate a date of its specs by the floor, the latest one.
pub type LatestSpecs<'a> = NameMap<'a, Minor>;

/// The versions that are forgotten by the floor.
pub type Forgotten<'a> = NameMap<'a, ()>;

fn is_spec(entry: &GateEntry) -> bool
    ensures { result ≡ is_spec entry.now.change }
{
    matches!(entry.change, GateChange::Spec { .. })
}

fn is_spec_by(entry: &GateEntry, floor: Minor) -> bool
    ensures { result ≡ (is_spec entry.now.change && nat_le entry.now.since floor) }
{
    is_spec(entry) && entry.since <= floor
}

// Whether a date of the entry's gate is later than the entry.
fn has_later<'a>(latest: &LatestSpecs<'a>, entry: &'a GateEntry) -> bool
    ensures { result ≡ has_later latest.now entry.now }
{
    match value_of(latest, entry.name.bytes(), &[], &[]) {
        Some(date) => entry.since < date,
        None => false,
    }
}

// Takes the entry in, where it is a spec by the floor and no later one of its gate is there.
fn take_spec<'a>(
    latest: &mut LatestSpecs<'a>,
    entry: &'a GateEntry,
    floor: Minor,
) -> Result<(), Memory>
    ensures { OnOk result ((gates : List TheGate) → HasLatestSpecs floor gates latest.old
        → HasLatestSpecs floor (gates ++ entry.now ∷ []) latest.new) }
{
    if !is_spec_by(entry, floor) || has_later(latest, entry) {
        return Ok(());
    }
    put(latest, entry.name.bytes(), &[], &[], entry.since)
}

/// The latest specs of gates by the floor.
pub fn latest_specs<'a>(
    alloc: Global,
    gates: &'a [GateEntry],
    floor: Minor,
) -> Result<LatestSpecs<'a>, Memory>
    ensures { IfOk result (HasLatestSpecs floor gates.now) }
{
    let mut latest: LatestSpecs<'a> = BTreeMap::new(alloc);
    for entry in gates {
        take_spec(&mut latest, entry, floor)?;
    }
    Ok(latest)
}

/// Whether the entry is a spec that a later one of its gate has followed by the floor.
pub fn is_past<'a>(latest: &LatestSpecs<'a>, entry: &'a GateEntry) -> bool
    ensures { result ≡ (is_spec entry.now.change && has_later latest.now entry.now) }
{
    is_spec(entry) && has_later(latest, entry)
}

// Takes the entry's version in, where it is forgotten by the floor.
fn take_forgetting<'a>(
    forgotten: &mut Forgotten<'a>,
    entry: &'a ApiEntry,
    floor: Minor,
) -> Result<(), Memory>
    ensures { OnOk result ((apis : List TheApi) → HasForgotten floor apis forgotten.old
        → HasForgotten floor (apis ++ entry.now ∷ []) forgotten.new) }
{
    if entry.since > floor || !entry.change.is_forgetting() {
        return Ok(());
    }
    let name = entry.name();
    put(forgotten, name.group, name.version, name.resource, ())
}

/// The versions that are forgotten at or before the floor.
pub fn forgotten_versions<'a>(
    alloc: Global,
    apis: &'a [ApiEntry],
    floor: Minor,
) -> Result<Forgotten<'a>, Memory>
    ensures { IfOk result (HasForgotten floor apis.now) }
{
    let mut forgotten: Forgotten<'a> = BTreeMap::new(alloc);
    for entry in apis {
        take_forgetting(&mut forgotten, entry, floor)?;
    }
    Ok(forgotten)
}

/// Whether the version is one of these.
pub fn is_forgotten<'a>(forgotten: &Forgotten<'a>, name: ApiName<'a>) -> bool
    ensures { result ≡ has_version forgotten.now (named name.entry) }
{
    value_of(forgotten, name.group, name.version, name.resource).is_some()
}

/// The version in which the field is spelled.
pub fn version_of(spell: &Spell) -> ApiName<'_>
    ensures { named result ≡ version_of spell.now }
{
    ApiName {
        group: spell.group.bytes(),
        version: spell.version.bytes(),
        resource: spell.resource.bytes(),
    }
}
