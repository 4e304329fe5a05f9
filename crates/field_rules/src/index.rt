//! The entries of a history, listed so that those of one name are found without a pass over all.
ghost use Rattle.std.specs.Prelude.{◌≡◌, ◌≤◌, ◌↔◌, IsTrue, IfOk, All, Any, max};
ghost use Rattle.lifecycle.specs.Entry.{subject, IsIntroduction};
ghost use Rattle.schemas.specs.ApiRules.{name_of, IsForgotten};
ghost use Rattle.schemas.specs.Rules.{first_of};
ghost use Rattle.field_rules.specs.Answers.{IsSpelledIn, PairsWith};
ghost use Rattle.listing.specs.Listing.{HasLent, EachLent};
ghost use Rattle.schemas.specs.Pairs.{IntroducesVersionOf, IsPair, IsOfField, IsOfVersion, IsSpelling, IsPaired};
ghost use Rattle.field_rules.specs.Lists.{lists};
ghost use Rattle.schemas.specs.SpellRules.{FitsType};

use crate::entries::{
    are_introduced_since, fits_fields, has_forgetting_by, has_gate_by, has_introduction_by,
    has_introduction_for, has_spelling, is_introduction,
};
use crate::keys::{list_fields, list_gates, list_resources, list_spells, list_versions};
use basis::Memory;
use fields::{Field, Spell};
use gate_spec::GateEntry;
use lifecycle::ApiEntry;
use listing::{Listing, listed};
use minor_version::{Minor, Text};
use std::alloc::Global;
use std::marker::Model;

/// The entries of a history with its first release, listed by their names. Contracts see the lists.
#[derive(Drop)]
pub struct Index<'a> {
    first: Minor,
    gates: &'a [GateEntry],
    apis: &'a [ApiEntry],
    fields: &'a [Field],
    spells: &'a [Spell],
    gates_by_name: Listing<'a, GateEntry>,
    apis_by_resource: Listing<'a, ApiEntry>,
    apis_by_version: Listing<'a, ApiEntry>,
    fields_by_resource: Listing<'a, Field>,
    spells_by_version: Listing<'a, Spell>,
}

impl<'a> Model for Index<'a> {
    ghost use Rattle.schemas.specs.Dated.{Dated};

    ghost Value = { Dated };

    ghost use Rattle.field_rules.specs.IndexFields.{lists_of, IsIndex};

    ghost view = { lists_of };

    ghost invariant = { IsIndex };
}

impl<'a> Index<'a> {
    /// The index of these entries.
    pub fn new(
        alloc: Global,
        first: Minor,
        gates: &'a [GateEntry],
        apis: &'a [ApiEntry],
        fields: &'a [Field],
        spells: &'a [Spell],
    ) -> Result<Self, Memory>
        ensures { IfOk result (λ index.
            index ≡ lists first gates.now apis.now fields.now spells.now) }
    {
        let gates_by_name = list_gates(alloc, gates)?;
        let apis_by_resource = list_resources(alloc, apis)?;
        let apis_by_version = list_versions(alloc, apis)?;
        let fields_by_resource = list_fields(alloc, fields)?;
        let spells_by_version = list_spells(alloc, spells)?;
        Ok(Index {
            first,
            gates,
            apis,
            fields,
            spells,
            gates_by_name,
            apis_by_resource,
            apis_by_version,
            fields_by_resource,
            spells_by_version,
        })
    }

    /// The history's first release.
    pub fn first(&self) -> Minor
        ensures { result ≡ first_of self.now }
    {
        self.first
    }

    /// Whether some version of the field's resource is introduced by this release.
    pub fn is_versioned_by(&self, field: &'a Field, by: Minor) -> bool
        ensures { IsTrue result
            ↔ Any (λ x. IntroducesVersionOf field.now.group field.now.resource x
            × (x.since ≤ by)) self.now.apis }
    {
        let group = field.group.bytes();
        let resource = field.resource.bytes();
        has_introduction_by(listed(&self.apis_by_resource, group, resource, &[]), by)
    }

    /// Whether each version of the field's resource is introduced at or after the field's date.
    pub fn is_from_start(&self, field: &'a Field) -> bool
        ensures { IsTrue result
            ↔ All (λ x. IntroducesVersionOf field.now.group field.now.resource x
            → field.now.since ≤ x.since) self.now.apis }
    {
        let group = field.group.bytes();
        let resource = field.resource.bytes();
        are_introduced_since(
            listed(&self.apis_by_resource, group, resource, &[]),
            field.since,
        )
    }

    /// Whether the gate has an entry by this release.
    pub fn is_gate_known(&self, gate: &'a Text, by: Minor) -> bool
        ensures { IsTrue result ↔ Any (λ x. (x.name ≡ gate.now) × (x.since ≤ by)) self.now.gates }
    {
        let name = gate.bytes();
        has_gate_by(listed(&self.gates_by_name, name, &[], &[]), by)
    }

    fn is_forgotten(
        &self,
        group: &'a [u8],
        version: &'a [u8],
        resource: &'a [u8],
        by: Minor,
    ) -> bool
        ensures { IsTrue result
            ↔ IsForgotten self.now.apis (name_of group.now version.now resource.now) by }
    {
        has_forgetting_by(listed(&self.apis_by_version, group, version, resource), by)
    }

    fn has_spelling_in(&self, field: &'a Field, entry: &'a ApiEntry) -> bool
        ensures { IsTrue result
            ↔ Any (λ s. IsOfVersion (subject entry.now) s
            × (s.field ≡ field.now.id)) self.now.spells }
    {
        let group = entry.group.bytes();
        let version = entry.version.bytes();
        let resource = entry.resource.bytes();
        has_spelling(
            listed(&self.spells_by_version, group, version, resource),
            &field.id,
        )
    }

    fn is_spelled_in(&self, field: &'a Field, entry: &'a ApiEntry) -> bool
        ensures { IsTrue result ↔ IsSpelledIn self.now field.now entry.now }
    {
        !is_introduction(&entry.change)
            || self.is_forgotten(
                entry.group.bytes(),
                entry.version.bytes(),
                entry.resource.bytes(),
                field.since,
            )
            || self.has_spelling_in(field, entry)
    }

    fn is_spelled_in_each(&self, field: &'a Field, entries: Option<&Vec<&'a ApiEntry>>) -> bool
        ensures { IsTrue result ↔ EachLent (IsSpelledIn self.now field.now) entries.entry }
    {
        let Some(entries) = entries else {
            return true;
        };
        for entry in entries {
            if !self.is_spelled_in(field, *entry) {
                return false;
            }
        }
        true
    }

    /// Whether each pair of the field with a version has a spelling.
    pub fn is_spelled_throughout(&self, field: &'a Field) -> bool
        ensures { IsTrue result
            ↔ All (λ x. IsPair self.now.apis field.now x
            → Any (IsSpelling field.now (subject x)) self.now.spells) self.now.apis }
    {
        let group = field.group.bytes();
        let resource = field.resource.bytes();
        self.is_spelled_in_each(field, listed(&self.apis_by_resource, group, resource, &[]))
    }

    fn is_introduced_for(&self, field: &Field, spell: &'a Spell) -> bool
        ensures { IsTrue result
            ↔ Any (λ x. IsOfVersion (subject x) spell.now × IsIntroduction x.change
            × (spell.now.since ≡ max field.now.since x.since)) self.now.apis }
    {
        let group = spell.group.bytes();
        let version = spell.version.bytes();
        let resource = spell.resource.bytes();
        has_introduction_for(
            listed(&self.apis_by_version, group, version, resource),
            field.since,
            spell.since,
        )
    }

    fn pairs_with(&self, field: &Field, spell: &'a Spell) -> bool
        ensures { IsTrue result ↔ PairsWith self.now field.now spell.now }
    {
        self.is_introduced_for(field, spell)
            && !self.is_forgotten(
                spell.group.bytes(),
                spell.version.bytes(),
                spell.resource.bytes(),
                field.since,
            )
    }

    fn pairs_with_one(&self, entries: Option<&Vec<&'a Field>>, spell: &'a Spell) -> bool
        ensures { IsTrue result
            ↔ HasLent (λ f. (f.id ≡ spell.now.field)
            × PairsWith self.now f spell.now) entries.entry }
    {
        let Some(entries) = entries else {
            return false;
        };
        for field in entries {
            if field.id == spell.field && self.pairs_with(*field, spell) {
                return true;
            }
        }
        false
    }

    /// Whether the spelling is that of a pair, and dated when both the field and the version are there.
    pub fn is_paired(&self, spell: &'a Spell) -> bool
        ensures { IsTrue result ↔ IsPaired self.now.apis self.now.fields spell.now }
    {
        let group = spell.group.bytes();
        let resource = spell.resource.bytes();
        self.pairs_with_one(
            listed(&self.fields_by_resource, group, resource, &[]),
            spell,
        )
    }

    /// Whether the spelling fits the type of its field.
    pub fn fits_field(&self, spell: &'a Spell) -> bool
        ensures { IsTrue result
            ↔ All (λ f. IsOfField f spell.now
            → FitsType f.ty spell.now.form spell.now.default) self.now.fields }
    {
        let group = spell.group.bytes();
        let resource = spell.resource.bytes();
        fits_fields(
            listed(&self.fields_by_resource, group, resource, &[]),
            spell,
        )
    }
}
