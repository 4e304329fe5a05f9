//! Bodies of requests.
ghost use Rattle.std.specs.Prelude.{◌≡◌, false, IfOk, OnOk, Some, string_bytes};
ghost use Rattle.conversion.specs.Code.{members_in};
ghost use Rattle.conversion.specs.Whole.{metadata};
ghost use Rattle.fields.specs.Fits.{Fits};
ghost use Rattle.fields.specs.Table.{AreLawful};
ghost use Rattle.serde_json.specs.Data.{object, put};
ghost use Rattle.serde_json.specs.View.{view as tree_of, members_view};
ghost use Rattle.serde_json.specs.Written.{compact_text, has_float};
ghost use Rattle.workload.specs.Requests.{IsBody, named};

use basis::Memory;
use conversion::show_fields;
use fields::{Fields, VersionTable};
use serde_json::{Map, Value, json, put};
use std::alloc::{AllocError, Global};

// The metadata of an object with this name.
fn metadata_of(alloc: Global, name: &str) -> Result<Value, AllocError>
    ensures { IfOk result (λ v. tree_of v ≡ named name.now) }
{
    json!(in alloc; {"name": name})
}

fn members_of(alloc: Global, object: Value) -> Map<String, Value>
    ensures { members_view result.entries ≡ members_in (Some (tree_of object)) }
{
    match object {
        Value::Object(members) => members,
        _ => Map::new(alloc),
    }
}

// The object with metadata.
fn described(alloc: Global, shown: Value, own: Value) -> Result<Value, Memory>
    ensures { IfOk result (λ v. tree_of v
        ≡ object (put metadata (tree_of own) (members_in (Some (tree_of shown))))) }
{
    let mut members = members_of(alloc, shown);
    put(&mut members, alloc, "metadata", own)?;
    Ok(Value::Object(members))
}

fn compact(alloc: Global, json: &Value) -> Result<String, AllocError>
    requires { has_float (tree_of json.now) ≡ false }
    ensures { IfOk result (λ s. string_bytes s ≡ compact_text (tree_of json.now)) }
{
    json.to_string(alloc)
}

/// The compact text of the object that shows the fields in the table's version, with the name in its metadata.
pub(crate) fn body(
    alloc: Global,
    table: &VersionTable,
    fields: &Fields,
    name: &str,
) -> Result<String, Memory>
    requires lawful { AreLawful table.now.rows }
    requires fits { Fits table.now.rows fields.now }
    ensures { IfOk result (λ s. IsBody table.now fields.now name.now (string_bytes s)) }
{
    let shown = show_fields(alloc, table, fields)?;
    let own = metadata_of(alloc, name)?;
    let object = described(alloc, shown, own)?;
    let text = compact(alloc, &object)?;
    Ok(text)
}
