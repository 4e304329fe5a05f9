//! The first changes of each kind, by version.
ghost use Rattle.std.specs.Prelude.{◌≡◌, IfOk, OnOk, List, ◌++◌, ◌∷◌, [], option_copied};
ghost use Rattle.lifecycle.specs.Entry.{named};
ghost use Rattle.lifecycle.specs.Tables.{cutoff};
ghost use Rattle.lifecycle.specs.declared.entry.ApiEntry.{ApiEntry as TheEntry};
ghost use Rattle.version_index.specs.Events.{is_event, change_in, HasFirstChanges};

use basis::{Memory, NameMap, put, value_of};
use lifecycle::{ApiChange, ApiEntry, ApiName};
use minor_version::Minor;
use std::alloc::Global;
use std::collections::BTreeMap;

/// A kind of change.
#[derive(Clone, Copy)]
pub enum Event {
    Introduction,
    Deprecation,
    Removal,
    Forgetting,
}

impl Event {
    fn is_of(self, change: &ApiChange) -> bool
        ensures { result ≡ is_event self change.now }
    {
        match self {
            Event::Introduction => change.is_introduction(),
            Event::Deprecation => change.is_deprecation(),
            Event::Removal => change.is_removal(),
            Event::Forgetting => change.is_forgetting(),
        }
    }

    /// Takes the entry into the map, where it is the first such change of its version.
    fn take_in<'a>(
        self,
        map: &mut NameMap<'a, &'a ApiEntry>,
        entry: &'a ApiEntry,
    ) -> Result<(), Memory>
        ensures { OnOk result (
            (tables : List TheEntry) → HasFirstChanges self tables map.old →
            HasFirstChanges self (tables ++ entry.now ∷ []) map.new
            ) }
    {
        let group = entry.group.bytes();
        let version = entry.version.bytes();
        let resource = entry.resource.bytes();
        if !self.is_of(&entry.change) || value_of(map, group, version, resource).is_some() {
            return Ok(());
        }
        put(map, group, version, resource, entry)
    }

    /// For each version the first such change that is dated at or before the release.
    pub fn first_changes<'a>(
        self,
        alloc: Global,
        entries: &'a [ApiEntry],
        e: Minor,
    ) -> Result<NameMap<'a, &'a ApiEntry>, Memory>
        ensures { IfOk result (HasFirstChanges self (cutoff entries.now e)) }
    {
        let mut map: NameMap<'a, &'a ApiEntry> = BTreeMap::new(alloc);
        for entry in entries {
            if entry.since > e {
                continue;
            }
            self.take_in(&mut map, entry)?;
        }
        Ok(map)
    }
}

/// What the map has of the version.
pub fn change_in<'a>(map: &NameMap<'a, &'a ApiEntry>, name: ApiName<'a>) -> Option<&'a ApiEntry>
    ensures { option_copied result ≡ change_in map.now (named name.entry) }
{
    value_of(map, name.group, name.version, name.resource)
}
