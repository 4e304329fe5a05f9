//! Entries listed by the names that other entries give them.
ghost use Rattle.std.specs.Prelude.{List, [], ◌∷◌, ◌++◌, OnOk, IfOk};
ghost use Rattle.fields.specs.declared.field.Field.{Field as TheField};
ghost use Rattle.fields.specs.declared.field.Spell.{Spell as TheSpell};
ghost use Rattle.listing.specs.Keys.{resource_of_field, version_of_spell};
ghost use Rattle.listing.specs.Listing.{IsListing};
ghost use Rattle.field_rules.specs.Keys.{gate_of, resource_of_api, version_of_api};

use basis::Memory;
use fields::{Field, Spell};
use gate_spec::GateEntry;
use lifecycle::ApiEntry;
use listing::{Listing, add, list_by, resource_of_field, version_of_spell};
use std::alloc::Global;

/// The entries of each gate.
pub fn list_gates<'a>(
    alloc: Global,
    entries: &'a [GateEntry],
) -> Result<Listing<'a, GateEntry>, Memory>
    ensures { IfOk result (IsListing gate_of entries.now) }
{
    list_by(alloc, entries, |x| (x.name.bytes(), &[], &[]))
}

/// The entries of each resource.
pub fn list_resources<'a>(
    alloc: Global,
    entries: &'a [ApiEntry],
) -> Result<Listing<'a, ApiEntry>, Memory>
    ensures { IfOk result (IsListing resource_of_api entries.now) }
{
    list_by(alloc, entries, |x| {
        (x.group.bytes(), x.resource.bytes(), &[])
    })
}

/// The entries of each version.
pub fn list_versions<'a>(
    alloc: Global,
    entries: &'a [ApiEntry],
) -> Result<Listing<'a, ApiEntry>, Memory>
    ensures { IfOk result (IsListing version_of_api entries.now) }
{
    list_by(alloc, entries, |x| {
        (x.group.bytes(), x.version.bytes(), x.resource.bytes())
    })
}

/// The fields of each resource.
pub fn list_fields<'a>(alloc: Global, entries: &'a [Field]) -> Result<Listing<'a, Field>, Memory>
    ensures { IfOk result (IsListing resource_of_field entries.now) }
{
    list_by(alloc, entries, |x| resource_of_field(x))
}

/// The spellings of each version.
pub fn list_spells<'a>(alloc: Global, entries: &'a [Spell]) -> Result<Listing<'a, Spell>, Memory>
    ensures { IfOk result (IsListing version_of_spell entries.now) }
{
    list_by(alloc, entries, |x| version_of_spell(x))
}

/// Lists one more field.
pub fn take_field<'a>(
    alloc: Global,
    fields: &mut Listing<'a, Field>,
    entry: &'a Field,
) -> Result<(), Memory>
    ensures { OnOk result ((entries : List TheField)
        → IsListing resource_of_field entries fields.old
        → IsListing resource_of_field (entries ++ entry.now ∷ []) fields.new) }
{
    let (group, resource, rest) = resource_of_field(entry);
    add(alloc, fields, group, resource, rest, entry)
}

/// Lists one more spelling.
pub fn take_spell<'a>(
    alloc: Global,
    spells: &mut Listing<'a, Spell>,
    entry: &'a Spell,
) -> Result<(), Memory>
    ensures { OnOk result ((entries : List TheSpell) → IsListing version_of_spell entries spells.old
        → IsListing version_of_spell (entries ++ entry.now ∷ []) spells.new) }
{
    let (group, version, resource) = version_of_spell(entry);
    add(alloc, spells, group, version, resource, entry)
}
