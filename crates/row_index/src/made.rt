//! How the rows of a version are made of the fields of its resource and of its spellings.
ghost use Rattle.std.specs.Prelude.{◌≡◌, ◌↔◌, IsTrue, IfOk, IfSome, true, option_copied};
ghost use Rattle.std.specs.BTreeMap.{values};
ghost use Rattle.gate_flags.specs.Values.{HasValue};
ghost use Rattle.listing.specs.Listing.{lent};
ghost use Rattle.row_index.specs.Made.{is_on, spelling_in, row_as, row_in, rows_in, AreApartById, RiseById, HoldsById};

use basis::Memory;
use fields::{Field, FieldRow, FieldRows, FieldValue, Spell, copy_of_texts};
use flag_text::Name;
use gate_flags::GateValues;
use std::alloc::Global;
use std::collections::BTreeMap;

/// The fields by their ids.
pub fn by_id<'a>(
    alloc: Global,
    fields: &[&'a Field],
) -> Result<BTreeMap<Name<'a>, &'a Field>, Memory>
    requires { AreApartById (lent fields.now) }
    ensures { IfOk result (HoldsById (lent fields.now)) }
{
    let mut held = BTreeMap::new(alloc);
    for field in fields {
        let bytes = field.id.bytes();
        held.insert(Name { bytes }, *field)?;
    }
    Ok(held)
}

fn is_guard_on(gates: &GateValues, field: &Field) -> bool
    ensures { result ≡ is_on gates.now field.now.gate }
{
    match &field.gate {
        Some(gate) => gates.value(gate.bytes()) == Some(true),
        None => true,
    }
}

fn spelling_in<'a>(spells: &[&'a Spell], field: &Field) -> Option<&'a Spell>
    ensures { option_copied result ≡ spelling_in (lent spells.now) field.now }
{
    for spell in spells {
        if spell.field == field.id {
            return Some(spell);
        }
    }
    None
}

fn copy_of_default(
    alloc: Global,
    default: &Option<FieldValue>,
) -> Result<Option<FieldValue>, Memory>
    ensures { IfOk result (λ copy. copy ≡ default.now) }
{
    match default {
        Some(value) => Ok(Some(value.duplicate(alloc)?)),
        None => Ok(None),
    }
}

fn row_as(alloc: Global, on: bool, field: &Field, spell: &Spell) -> Result<FieldRow, Memory>
    ensures { IfOk result (λ row. row ≡ row_as on field.now spell.now) }
{
    Ok(FieldRow {
        id: field.id.duplicate(alloc)?,
        ty: field.ty,
        required: field.required,
        on,
        path: copy_of_texts(alloc, spell.path.items())?,
        form: spell.form,
        default: copy_of_default(alloc, &spell.default)?,
    })
}

fn row_in(
    alloc: Global,
    gates: &GateValues,
    spells: &[&Spell],
    field: &Field,
) -> Result<Option<FieldRow>, Memory>
    ensures { IfOk result (λ row. row ≡ row_in gates.now (lent spells.now) field.now) }
{
    match spelling_in(spells, field) {
        Some(spell) => Ok(Some(row_as(alloc, is_guard_on(gates, field), field, spell)?)),
        None => Ok(None),
    }
}

/// The rows of the fields that have one of the spellings, in order of id.
pub fn rows_in<'a>(
    alloc: Global,
    gates: &GateValues,
    spells: &[&'a Spell],
    fields: &BTreeMap<Name<'a>, &'a Field>,
) -> Result<FieldRows, Memory>
    requires { RiseById (values fields.now) }
    ensures { IfOk result (λ rows. rows ≡ rows_in gates.now (lent spells.now) (values fields.now)) }
{
    let mut rows = FieldRows::new();
    for field in fields.values() {
        let row = match row_in(alloc, gates, spells, field) {
            Ok(Some(row)) => row,
            Ok(None) => continue,
            Err(Memory) => return Err(Memory),
        };
        rows.push(alloc, row)?;
    }
    Ok(rows)
}
