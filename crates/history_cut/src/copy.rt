//! Copies of the entries of a history.
ghost use Rattle.std.specs.Prelude.{◌≡◌, IfOk};

use basis::Memory;
use fields::{Field, FieldValue, Spell, copy_of_texts};
use gate_spec::GateEntry;
use lifecycle::{ApiChange, ApiEntry};
use minor_version::Text;
use std::alloc::Global;

/// A copy of a change of a gate.
pub fn copy_of_gate(alloc: Global, entry: &GateEntry) -> Result<GateEntry, Memory>
    ensures { IfOk result (λ copy. copy ≡ entry.now) }
{
    Ok(GateEntry {
        name: entry.name.duplicate(alloc)?,
        since: entry.since,
        change: entry.change,
    })
}

fn copy_of_change(alloc: Global, change: &ApiChange) -> Result<ApiChange, Memory>
    ensures { IfOk result (λ copy. copy ≡ change.now) }
{
    match change {
        ApiChange::Introduced {
            kind,
            singular,
            namespaced,
            enabled,
        } => Ok(ApiChange::Introduced {
            kind: kind.duplicate(alloc)?,
            singular: singular.duplicate(alloc)?,
            namespaced: *namespaced,
            enabled: *enabled,
        }),
        ApiChange::Deprecated {
            removal,
            replacement,
        } => Ok(ApiChange::Deprecated {
            removal: *removal,
            replacement: replacement.duplicate(alloc)?,
        }),
        ApiChange::Removed => Ok(ApiChange::Removed),
        ApiChange::Forgotten => Ok(ApiChange::Forgotten),
    }
}

/// A copy of a change of a version.
pub fn copy_of_api(alloc: Global, entry: &ApiEntry) -> Result<ApiEntry, Memory>
    ensures { IfOk result (λ copy. copy ≡ entry.now) }
{
    Ok(ApiEntry {
        group: entry.group.duplicate(alloc)?,
        version: entry.version.duplicate(alloc)?,
        resource: entry.resource.duplicate(alloc)?,
        since: entry.since,
        change: copy_of_change(alloc, &entry.change)?,
    })
}

fn copy_of_guard(alloc: Global, gate: &Option<Text>) -> Result<Option<Text>, Memory>
    ensures { IfOk result (λ copy. copy ≡ gate.now) }
{
    match gate {
        Some(gate) => Ok(Some(gate.duplicate(alloc)?)),
        None => Ok(None),
    }
}

/// A copy of a field.
pub fn copy_of_field(alloc: Global, field: &Field) -> Result<Field, Memory>
    ensures { IfOk result (λ copy. copy ≡ field.now) }
{
    Ok(Field {
        group: field.group.duplicate(alloc)?,
        resource: field.resource.duplicate(alloc)?,
        id: field.id.duplicate(alloc)?,
        since: field.since,
        ty: field.ty,
        required: field.required,
        gate: copy_of_guard(alloc, &field.gate)?,
    })
}

fn copy_of_default(
    alloc: Global,
    default: &Option<FieldValue>,
) -> Result<Option<FieldValue>, Memory>
    ensures { IfOk result (λ copy. copy ≡ default.now) }
{
    match default {
        Some(value) => Ok(Some(value.duplicate(alloc)?)),
        None => Ok(None),
    }
}

/// A copy of a spelling.
pub fn copy_of_spell(alloc: Global, spell: &Spell) -> Result<Spell, Memory>
    ensures { IfOk result (λ copy. copy ≡ spell.now) }
{
    Ok(Spell {
        group: spell.group.duplicate(alloc)?,
        resource: spell.resource.duplicate(alloc)?,
        version: spell.version.duplicate(alloc)?,
        field: spell.field.duplicate(alloc)?,
        since: spell.since,
        path: copy_of_texts(alloc, spell.path.items())?,
        form: spell.form,
        default: copy_of_default(alloc, &spell.default)?,
    })
}
