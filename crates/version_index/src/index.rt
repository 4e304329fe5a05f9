use crate::event::{Event, change_in};
use basis::{Memory, NameMap};
use lifecycle::{ApiEntry, ApiName, Warning};
use minor_version::Minor;
use std::alloc::Global;
use std::marker::Model;

/// An index of the changes up to a release, seen as the tables of that release.
#[derive(Drop)]
pub struct VersionIndex<'a> {
    entries: &'a [ApiEntry],
    e: Minor,
    introductions: NameMap<'a, &'a ApiEntry>,
    deprecations: NameMap<'a, &'a ApiEntry>,
    removals: NameMap<'a, &'a ApiEntry>,
    forgettings: NameMap<'a, &'a ApiEntry>,
}

impl<'a> Model for VersionIndex<'a> {
    ghost use Rattle.std.specs.Prelude.{List};
    ghost use Rattle.lifecycle.specs.declared.entry.ApiEntry.{ApiEntry as TheEntry};

    ghost Value = { List TheEntry };

    ghost use Rattle.version_index.specs.Fields.{tables_of, IsIndex};

    ghost view = { tables_of };

    ghost invariant = { IsIndex };
}

impl<'a> VersionIndex<'a> {
    ghost use Rattle.std.specs.Prelude.{◌≡◌, IfOk, IfSome, IsUtf8, option_copied, option_map};
    ghost use Rattle.lifecycle.specs.Entry.{named};
    ghost use Rattle.lifecycle.specs.Tables.{cutoff, is_introduction, first_change, live, decodable, warning};
    ghost use Rattle.lifecycle.specs.Warnings.{told};

    /// The index of the changes dated at or before the release.
    pub fn at(alloc: Global, entries: &'a [ApiEntry], e: Minor) -> Result<Self, Memory>
        ensures { IfOk result (λ index. index ≡ cutoff entries.now e) }
    {
        let introductions = Event::Introduction.first_changes(alloc, entries, e)?;
        let deprecations = Event::Deprecation.first_changes(alloc, entries, e)?;
        let removals = Event::Removal.first_changes(alloc, entries, e)?;
        let forgettings = Event::Forgetting.first_changes(alloc, entries, e)?;
        Ok(VersionIndex {
            entries,
            e,
            introductions,
            deprecations,
            removals,
            forgettings,
        })
    }

    /// The first introduction of the version.
    pub fn introduction(&self, name: ApiName<'a>) -> Option<&'a ApiEntry>
        ensures { option_copied result ≡ first_change is_introduction self.now (named name.entry) }
    {
        change_in(&self.introductions, name)
    }

    /// Whether the version is there: introduced and not removed.
    pub fn is_live(&self, name: ApiName<'a>) -> bool
        ensures { result ≡ live self.now (named name.entry) }
    {
        change_in(&self.introductions, name).is_some() && change_in(&self.removals, name).is_none()
    }

    /// Whether stored objects in the version are read: introduced and not forgotten.
    pub fn is_decodable(&self, name: ApiName<'a>) -> bool
        ensures { result ≡ decodable self.now (named name.entry) }
    {
        change_in(&self.introductions, name).is_some()
            && change_in(&self.forgettings, name).is_none()
    }

    /// What a client is told that uses the version: its first deprecation, while it is live.
    pub fn warning(&self, name: ApiName<'a>) -> Option<Warning<'a>>
        ensures told { option_map told result ≡ warning self.now (named name.entry) }
        ensures text { IfSome result (λ w. IsUtf8 w.replacement.now) }
    {
        if !self.is_live(name) {
            return None;
        }
        match change_in(&self.deprecations, name) {
            Some(entry) => entry.warning(),
            None => None,
        }
    }
}
