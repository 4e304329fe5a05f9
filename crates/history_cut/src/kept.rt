//! The entries that a cut keeps: copies of those dated at or before the release, in order.
ghost use Rattle.std.specs.Prelude.{◌≡◌, IfOk};
ghost use Rattle.gate_spec.specs.Gates.{cutoff as gates_by};
ghost use Rattle.lifecycle.specs.Tables.{cutoff as apis_by};
ghost use Rattle.schemas.specs.Cutoff.{fields_by, spells_by};

use crate::copy::{copy_of_api, copy_of_field, copy_of_gate, copy_of_spell};
use basis::Memory;
use fields::{Field, FieldList, Spell, SpellList};
use gate_spec::GateEntry;
use lifecycle::ApiEntry;
use minor_version::Minor;
use schemas::{ApiList, GateList};
use std::alloc::Global;

/// The changes of gates that the release knows.
pub fn kept_gates(alloc: Global, entries: &[GateEntry], o: Minor) -> Result<GateList, Memory>
    ensures { IfOk result (λ kept. kept ≡ gates_by entries.now o) }
{
    let mut kept = GateList::new();
    for entry in entries {
        if entry.since <= o {
            let copy = copy_of_gate(alloc, entry)?;
            kept.push(alloc, copy)?;
        }
    }
    Ok(kept)
}

/// The changes of versions that the release knows.
pub fn kept_apis(alloc: Global, entries: &[ApiEntry], o: Minor) -> Result<ApiList, Memory>
    ensures { IfOk result (λ kept. kept ≡ apis_by entries.now o) }
{
    let mut kept = ApiList::new();
    for entry in entries {
        if entry.since <= o {
            let copy = copy_of_api(alloc, entry)?;
            kept.push(alloc, copy)?;
        }
    }
    Ok(kept)
}

/// The fields that the release knows.
pub fn kept_fields(alloc: Global, fields: &[Field], o: Minor) -> Result<FieldList, Memory>
    ensures { IfOk result (λ kept. kept ≡ fields_by fields.now o) }
{
    let mut kept = FieldList::new();
    for field in fields {
        if field.since <= o {
            let copy = copy_of_field(alloc, field)?;
            kept.push(alloc, copy)?;
        }
    }
    Ok(kept)
}

/// The spellings that the release knows.
pub fn kept_spells(alloc: Global, spells: &[Spell], o: Minor) -> Result<SpellList, Memory>
    ensures { IfOk result (λ kept. kept ≡ spells_by spells.now o) }
{
    let mut kept = SpellList::new();
    for spell in spells {
        if spell.since <= o {
            let copy = copy_of_spell(alloc, spell)?;
            kept.push(alloc, copy)?;
        }
    }
    Ok(kept)
}
