//! Objects that show what a map of fields holds.
ghost use Rattle.std.specs.Prelude.{◌≡◌, false, IfOk, IfSome, option_map};
ghost use Rattle.fields.specs.Fits.{Fits};
ghost use Rattle.fields.specs.Map.{value_at};
ghost use Rattle.fields.specs.Table.{AreLawful, IsLawfulRow, IsValueOf};
ghost use Rattle.serde_json.specs.View.{view, members_view};
ghost use Rattle.serde_json.specs.Written.{has_float};
ghost use Rattle.conversion.specs.Code.{members_in, IsPlaced, KeepsOrder, IsRowShown};
ghost use Rattle.conversion.specs.Reading.{Reads};
ghost use Rattle.conversion.specs.Showing.{Shows};
ghost use Rattle.conversion.specs.declared.mode.Mode.TheVariants.{Stored};

use crate::write::written;
use basis::Memory;
use fields::{FieldRow, Fields, VersionTable};
use minor_version::Text;
use serde_json::{Map, Value, put};
use std::alloc::{AllocError, Global};

// The members of an object; none of what is no object.
pub(crate) fn members_of(alloc: Global, old: Option<Value>) -> Map<String, Value>
    ensures { members_view result.entries ≡ members_in (option_map view old) }
{
    let Some(old) = old else {
        return Map::new(alloc);
    };
    match old {
        Value::Object(members) => members,
        _ => Map::new(alloc),
    }
}

// The tree with the value at the path. What isn't an object on the way gives way to one.
fn placed(
    alloc: Global,
    old: Option<Value>,
    path: &[Text],
    value: Value,
) -> Result<Value, AllocError>
    ensures placed { IfOk result (λ v. IsPlaced path.now (view value) (option_map view old) (view v)) }
    ensures order { IfOk result (λ v. KeepsOrder (option_map view old) (view value) (view v)) }
{
    match path {
        [] => Ok(value),
        [name, rest @ ..] => {
            let mut members = members_of(alloc, old);
            let inner = members.remove(name.as_str());
            let inner = placed(alloc, inner, rest, value)?;
            put(&mut members, alloc, name.as_str(), inner)?;
            Ok(Value::Object(members))
        }
    }
}

// The tree with the row's field, where that is held.
fn with_row(
    alloc: Global,
    shown: Value,
    row: &FieldRow,
    fields: &Fields,
) -> Result<Value, AllocError>
    requires lawful { IsLawfulRow row.now }
    requires typed { IfSome (value_at fields.now row.now.id) (IsValueOf row.now.ty) }
    ensures { IfOk result (λ v. IsRowShown row.now (value_at fields.now row.now.id) (view shown) (view v)) }
{
    match fields.get(row.id.bytes()) {
        Some(value) => {
            let json = written(alloc, row.form, value)?;
            placed(alloc, Some(shown), row.path.items(), json)
        }
        None => Ok(shown),
    }
}

fn shown_rows(alloc: Global, rows: &[FieldRow], fields: &Fields) -> Result<Value, Memory>
    requires lawful { AreLawful rows.now }
    requires fits { Fits rows.now fields.now }
    ensures { IfOk result (λ v. Shows rows.now fields.now (view v)) }
{
    let mut shown = Value::Object(Map::new(alloc));
    for row in rows {
        shown = with_row(alloc, shown, row, fields)?;
    }
    Ok(shown)
}

/// The object that shows the fields in the table's version: each held field at its path, in its form, and nothing else.
/// Read again in mode `Stored`, it gives the same fields.
pub fn show_fields(alloc: Global, table: &VersionTable, fields: &Fields) -> Result<Value, Memory>
    requires lawful { AreLawful table.now.rows }
    requires fits { Fits table.now.rows fields.now }
    ensures shown { IfOk result (λ v. Shows table.now.rows fields.now (view v)) }
    ensures no_float { IfOk result (λ v. has_float (view v) ≡ false) }
    ensures reads_back { IfOk result (λ v. Reads Stored table.now.rows (view v) fields.now) }
{
    shown_rows(alloc, table.rows.items(), fields)
}
