//! What is stored of objects, and what is read of it.
ghost use Rattle.std.specs.Prelude.{◌≡◌, ◌↔◌, true, false, None, IfOk, OnOk, IfErr, OnErr, IfSome, IfNone, string_bytes};
ghost use Rattle.conversion.specs.Whole.{api_version, IsTextOf};
ghost use Rattle.fields.specs.Fits.{Fits};
ghost use Rattle.fields.specs.Table.{AreLawful};
ghost use Rattle.fields.specs.declared.table.VersionTable.{VersionTable as TableS};
ghost use Rattle.release_view.specs.Views.{has_live};
ghost use Rattle.serde_json.specs.View.{view as tree_of};
ghost use Rattle.serde_json.specs.Written.{compact_text};
ghost use Rattle.storage_version.specs.Bodies.{IsBodyOf, IsNamed, IsObjectRead, IsBodyRead, IsVersionTold, IsObjectFault, IsDecodeFault, IsFaultOf};

use crate::fault::DecodeFault;
use basis::Memory;
use conversion::{
    Mode, ReadFault, object_of, read_fields, text_at, tree_has_one_answer, whole_object,
};
use discovery::group_version;
use fields::{Fields, VersionTable};
use minor_version::{Blob, Text};
use release_view::View;
use serde_json::Value;
use std::alloc::Global;

/// What is stored of an object: the compact text of what shows the fields in the table's version, with `apiVersion` and
/// `kind`, without metadata and without a line feed.
pub fn encode_body(alloc: Global, table: &VersionTable, fields: &Fields) -> Result<Blob, Memory>
    requires lawful { AreLawful table.now.rows }
    requires fits { Fits table.now.rows fields.now }
    ensures { IfOk result (IsBodyOf table.now fields.now) }
{
    let version = group_version(alloc, &table.group, &table.version)?;
    let object = whole_object(alloc, table, version.as_str(), fields, None)?;
    let text = object.to_string(alloc)?;
    Blob::copy(alloc, text.as_str().as_bytes())
}

// The table of the version that the object names.
fn table_of<'a>(
    view: &'a View,
    group: &[u8],
    resource: &[u8],
    json: &Value,
) -> Option<&'a VersionTable>
    ensures some { IfSome result
        (λ t. IsNamed view.now.versions group.now resource.now (tree_of json.now) t.now) }
    ensures none { IfNone result ((t : TableS)
        → ¬ IsNamed view.now.versions group.now resource.now (tree_of json.now) t) }
    ensures lawful { IfSome result (λ t. AreLawful t.now.rows) }
{
    let version = text_at(json, "apiVersion")?;
    let table = view.table_of_version(version, group, resource)?;
    let kind = text_at(json, "kind")?;
    if kind == table.kind.as_str() {
        Some(table)
    } else {
        None
    }
}

fn undecodable(alloc: Global, version: &str) -> DecodeFault
    ensures { IsFaultOf version.now result }
{
    match Text::from_str(alloc, version) {
        Ok(version) => DecodeFault::Undecodable { version },
        Err(Memory) => DecodeFault::Memory,
    }
}

fn version_told(json: &Value) -> &str
    ensures { IsVersionTold (tree_of json.now) result.now }
{
    match text_at(json, "apiVersion") {
        Some(version) => version,
        None => "?",
    }
}

fn object_fields(
    alloc: Global,
    view: &View,
    group: &[u8],
    resource: &[u8],
    json: &Value,
) -> Result<Fields, DecodeFault>
    ensures ok { IfOk result
        (IsObjectRead view.now.versions group.now resource.now (tree_of json.now)) }
    ensures err { IfErr result
        (IsObjectFault view.now.versions group.now resource.now (tree_of json.now)) }
{
    let Some(table) = table_of(view, group, resource, json) else {
        return Err(undecodable(alloc, version_told(json)));
    };
    match read_fields(alloc, table, json, Mode::Stored) {
        Ok(fields) => Ok(fields),
        Err(ReadFault::Bad { .. }) => {
            tree_has_one_answer(table, json, Mode::Stored);
            Err(undecodable(alloc, version_told(json)))
        }
        Err(ReadFault::Memory) => Err(DecodeFault::Memory),
    }
}

fn body_fields(
    alloc: Global,
    view: &View,
    group: &[u8],
    resource: &[u8],
    body: &[u8],
) -> Result<Fields, DecodeFault>
    ensures ok { IfOk result (IsBodyRead view.now.versions group.now resource.now body.now) }
    ensures err { IfErr result
        (IsDecodeFault view.now.versions group.now resource.now body.now) }
{
    match object_of(alloc, body)? {
        Some(json) => object_fields(alloc, view, group, resource, &json),
        None => Err(undecodable(alloc, "?")),
    }
}

/// The fields of a stored body of the resource, as the view's release reads it. None where the kind isn't live there; a
/// body of a live kind that the release doesn't read is `Undecodable`.
pub fn decode_body(
    alloc: Global,
    view: &View,
    group: &[u8],
    resource: &[u8],
    body: &[u8],
) -> Result<Option<Fields>, DecodeFault>
    ensures some { IfOk result (λ o. IfSome o
        (IsBodyRead view.now.versions group.now resource.now body.now)) }
    ensures not_live { (result ≡ Ok None)
        ↔ (has_live view.now.versions group.now resource.now ≡ false) }
    ensures err { IfErr result
        (IsDecodeFault view.now.versions group.now resource.now body.now) }
{
    if !view.kind_live(group, resource) {
        return Ok(None);
    }
    let fields = body_fields(alloc, view, group, resource, body)?;
    Ok(Some(fields))
}
