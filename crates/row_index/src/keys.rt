//! Fields listed by resource, and spellings by version, as far as they are known at a release.
ghost use Rattle.std.specs.Prelude.{IfOk};
ghost use Rattle.listing.specs.Keys.{resource_of_field, version_of_spell};
ghost use Rattle.listing.specs.Listing.{IsListing};
ghost use Rattle.schemas.specs.Cutoff.{fields_by, spells_by};

use basis::Memory;
use fields::{Field, Spell};
use listing::{Listing, list_those_by, resource_of_field, version_of_spell};
use minor_version::Minor;
use std::alloc::Global;

/// The fields of each resource that are dated at or before the release.
pub fn list_fields<'a>(
    alloc: Global,
    fields: &'a [Field],
    e: Minor,
) -> Result<Listing<'a, Field>, Memory>
    ensures { IfOk result (IsListing resource_of_field (fields_by fields.now e)) }
{
    list_those_by(alloc, fields, |x| x.since <= e, |x| resource_of_field(x))
}

/// The spellings of each version that are dated at or before the release.
pub fn list_spells<'a>(
    alloc: Global,
    spells: &'a [Spell],
    e: Minor,
) -> Result<Listing<'a, Spell>, Memory>
    ensures { IfOk result (IsListing version_of_spell (spells_by spells.now e)) }
{
    list_those_by(alloc, spells, |x| x.since <= e, |x| version_of_spell(x))
}
