//! The rules on fields: for each, the number of the first entry that breaks it.
ghost use Rattle.std.specs.Prelude.{◌≡◌, ◌↔◌, ◌<◌, List, [], IsTrue, IfOk, All, length, filter};
ghost use Rattle.fields.specs.declared.field.Field.{Field as TheField};
ghost use Rattle.schemas.specs.Places.{FindsFirst};
ghost use Rattle.schemas.specs.Rules.{first_of};
ghost use Rattle.schemas.specs.FieldRules.{is_of_resource, AreOneField, begins_at, BelongsToResource, IsRequiredFairly, HasKnownGate, IsSpelledThroughout};
ghost use Rattle.listing.specs.Keys.{resource_of_field};
ghost use Rattle.listing.specs.Listing.{IsListing};

use crate::entries::{count, has_field};
use crate::index::Index;
use crate::keys::take_field;
use basis::Memory;
use fields::Field;
use listing::{Listing, listed};
use minor_version::Minor;
use std::alloc::Global;
use std::collections::BTreeMap;

/// How many fields a resource has at most.
const MOST_FIELDS: usize = 64;

fn begin(first: Minor, field: &Field) -> Minor
    ensures { result ≡ begins_at first field.now }
{
    field.since.max(first)
}

fn is_once<'a>(earlier: &Listing<'a, Field>, field: &'a Field) -> bool
    ensures { (fields : List TheField) → IsListing resource_of_field fields earlier.now
        → IsTrue result ↔ All (λ y. ¬ AreOneField field.now y) fields }
{
    let group = field.group.bytes();
    let resource = field.resource.bytes();
    !has_field(listed(earlier, group, resource, &[]), &field.id)
}

fn is_of_few<'a>(earlier: &Listing<'a, Field>, field: &'a Field) -> bool
    ensures { (fields : List TheField) → IsListing resource_of_field fields earlier.now
        → IsTrue result ↔ (length (filter (is_of_resource field.now) fields) < 64) }
{
    let group = field.group.bytes();
    let resource = field.resource.bytes();
    count(listed(earlier, group, resource, &[])) < MOST_FIELDS
}

fn belongs<'a>(index: &Index<'a>, earlier: &Listing<'a, Field>, field: &'a Field) -> bool
    ensures { (fields : List TheField) → IsListing resource_of_field fields earlier.now
        → IsTrue result ↔ BelongsToResource (first_of index.now) index.now.apis fields field.now }
{
    is_once(earlier, field)
        && is_of_few(earlier, field)
        && index.is_versioned_by(field, begin(index.first(), field))
}

/// The first field that is named again, is one too many, or has no version when it begins (HR11).
pub fn first_misplaced<'a>(
    alloc: Global,
    index: &Index<'a>,
    fields: &'a [Field],
) -> Result<Option<u64>, Memory>
    ensures { IfOk result
        (FindsFirst (BelongsToResource (first_of index.now) index.now.apis) fields.now) }
{
    let mut earlier: Listing<'a, Field> = BTreeMap::new(alloc);
    for (i, field) in fields.iter().enumerate() {
        if !belongs(index, &earlier, field) {
            return Ok(Some(i as u64 + 1));
        }
        take_field(alloc, &mut earlier, field)?;
    }
    Ok(None)
}

fn is_required_fairly<'a>(index: &Index<'a>, field: &'a Field) -> bool
    ensures { IsTrue result ↔ IsRequiredFairly index.now.apis [] field.now }
{
    if field.required {
        field.gate.is_none() && index.is_from_start(field)
    } else {
        true
    }
}

/// The first required field that isn't always there (HR12).
pub fn first_unfairly_required<'a>(index: &Index<'a>, fields: &'a [Field]) -> Option<u64>
    ensures { FindsFirst (IsRequiredFairly index.now.apis) fields.now result }
{
    for (i, field) in fields.iter().enumerate() {
        if !is_required_fairly(index, field) {
            return Some(i as u64 + 1);
        }
    }
    None
}

fn has_known_gate<'a>(index: &Index<'a>, field: &'a Field) -> bool
    ensures { IsTrue result ↔ HasKnownGate (first_of index.now) index.now.gates [] field.now }
{
    match &field.gate {
        Some(gate) => index.is_gate_known(gate, begin(index.first(), field)),
        None => true,
    }
}

/// The first field whose gate isn't known when it begins (HR13).
pub fn first_with_unknown_gate<'a>(index: &Index<'a>, fields: &'a [Field]) -> Option<u64>
    ensures { FindsFirst (HasKnownGate (first_of index.now) index.now.gates) fields.now result }
{
    for (i, field) in fields.iter().enumerate() {
        if !has_known_gate(index, field) {
            return Some(i as u64 + 1);
        }
    }
    None
}

/// The first field that lacks a spelling in some version (HR14).
pub fn first_unspelled<'a>(index: &Index<'a>, fields: &'a [Field]) -> Option<u64>
    ensures { FindsFirst (IsSpelledThroughout index.now.apis index.now.spells) fields.now result }
{
    for (i, field) in fields.iter().enumerate() {
        if !index.is_spelled_throughout(field) {
            return Some(i as u64 + 1);
        }
    }
    None
}
