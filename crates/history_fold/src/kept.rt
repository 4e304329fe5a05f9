//! The entries that a fold keeps: copies of those that some release from the floor on needs, in order.
ghost use Rattle.std.specs.Prelude.{◌≡◌, IfOk};
ghost use Rattle.history_fold.specs.Folded.{gates_from, apis_from, spells_from};

use crate::past::{forgotten_versions, is_forgotten, is_past, latest_specs, version_of};
use basis::Memory;
use fields::{Field, FieldList, Spell, SpellList};
use gate_spec::GateEntry;
use history_cut::{copy_of_api, copy_of_field, copy_of_gate, copy_of_spell};
use lifecycle::ApiEntry;
use minor_version::Minor;
use schemas::{ApiList, GateList};
use std::alloc::Global;

/// The changes of gates but for past specs.
pub fn kept_gates(alloc: Global, gates: &[GateEntry], floor: Minor) -> Result<GateList, Memory>
    ensures { IfOk result (λ kept. kept ≡ gates_from gates.now floor) }
{
    let latest = latest_specs(alloc, gates, floor)?;
    let mut kept = GateList::new();
    for entry in gates {
        if !is_past(&latest, entry) {
            let copy = copy_of_gate(alloc, entry)?;
            kept.push(alloc, copy)?;
        }
    }
    Ok(kept)
}

/// The changes of versions that aren't forgotten.
pub fn kept_apis(alloc: Global, apis: &[ApiEntry], floor: Minor) -> Result<ApiList, Memory>
    ensures { IfOk result (λ kept. kept ≡ apis_from apis.now floor) }
{
    let forgotten = forgotten_versions(alloc, apis, floor)?;
    let mut kept = ApiList::new();
    for entry in apis {
        if !is_forgotten(&forgotten, entry.name()) {
            let copy = copy_of_api(alloc, entry)?;
            kept.push(alloc, copy)?;
        }
    }
    Ok(kept)
}

/// All fields.
pub fn kept_fields(alloc: Global, fields: &[Field]) -> Result<FieldList, Memory>
    ensures { IfOk result (λ kept. kept ≡ fields.now) }
{
    let mut kept = FieldList::new();
    for field in fields {
        let copy = copy_of_field(alloc, field)?;
        kept.push(alloc, copy)?;
    }
    Ok(kept)
}

/// The spellings in versions that aren't forgotten.
pub fn kept_spells(
    alloc: Global,
    apis: &[ApiEntry],
    spells: &[Spell],
    floor: Minor,
) -> Result<SpellList, Memory>
    ensures { IfOk result (λ kept. kept ≡ spells_from apis.now spells.now floor) }
{
    let forgotten = forgotten_versions(alloc, apis, floor)?;
    let mut kept = SpellList::new();
    for spell in spells {
        if !is_forgotten(&forgotten, version_of(spell)) {
            let copy = copy_of_spell(alloc, spell)?;
            kept.push(alloc, copy)?;
        }
    }
    Ok(kept)
}
