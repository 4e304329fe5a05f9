//! Objects from one version of their resource to another.
ghost use Rattle.std.specs.Prelude.{◌≡◌, ◌↔◌, ◌∷◌, [], false, IsTrue, IfOk, OnOk, IfErr, IfSome, option_copied};
ghost use Rattle.conversion.specs.Reading.{Reads};
ghost use Rattle.conversion.specs.Whole.{metadata};
ghost use Rattle.conversion.specs.declared.mode.Mode.TheVariants.{Stored};
ghost use Rattle.fields.specs.Fits.{Fits};
ghost use Rattle.fields.specs.Table.{AreLawful};
ghost use Rattle.object_convert.specs.Code.{IsObjectFault, IsMetadataFault};
ghost use Rattle.object_convert.specs.Convert.{table_of, IsConverted, Converts, IsTreeFault, IsConvertFault};
ghost use Rattle.object_convert.specs.Objects.{HasWholeMetadata};
ghost use Rattle.serde_json.specs.View.{view as tree_of};
ghost use Rattle.serde_json.specs.Written.{has_float};

use crate::fault::ConvertFault;
use basis::Memory;
use conversion::{
    Mode, ReadCause, ReadFault, has_float, object_of, read_fields, taken, text_at, there_and_back,
    whole_object,
};
use fields::{Fields, Path, VersionTable};
use minor_version::Text;
use release_view::{View, versions_spell_alike};
use serde_json::Value;
use std::alloc::Global;

/// The table of the version that the object names by `apiVersion` and `kind`.
fn table_of<'a>(view: &'a View, json: &Value) -> Option<&'a VersionTable>
    ensures value { option_copied result ≡ table_of view.now.versions (tree_of json.now) }
    ensures lawful { IfSome result (λ t. AreLawful t.now.rows) }
{
    let version = text_at(json, "apiVersion")?;
    let kind = text_at(json, "kind")?;
    view.table_of_kind(version, kind)
}

/// Whether the numbers in the object's metadata are whole.
fn has_whole_metadata(json: &Value) -> bool
    ensures { IsTrue result ↔ HasWholeMetadata (tree_of json.now) }
{
    match json.get("metadata") {
        Some(metadata) => !has_float(metadata),
        None => true,
    }
}

fn metadata_path(alloc: Global) -> Result<Path, Memory>
    ensures { IfOk result (λ path. path ≡ metadata ∷ []) }
{
    let mut path = Path::new();
    path.push(alloc, Text::from_str(alloc, "metadata")?)?;
    Ok(path)
}

fn metadata_fault(alloc: Global) -> ConvertFault
    ensures { IsMetadataFault result }
{
    match metadata_path(alloc) {
        Ok(path) => ConvertFault::Bad {
            path,
            cause: ReadCause::NotInt,
        },
        Err(Memory) => ConvertFault::Memory,
    }
}

/// The fields of an object of the table, whose metadata can be copied.
fn fields_of(alloc: Global, table: &VersionTable, json: &Value) -> Result<Fields, ConvertFault>
    requires { AreLawful table.now.rows }
    ensures reads { IfOk result (Reads Stored table.now.rows (tree_of json.now)) }
    ensures fits { IfOk result (Fits table.now.rows) }
    ensures whole { OnOk result (HasWholeMetadata (tree_of json.now)) }
    ensures fault { IfErr result (IsObjectFault table.now.rows (tree_of json.now)) }
{
    match read_fields(alloc, table, json, Mode::Stored) {
        Ok(fields) => if has_whole_metadata(json) {
            Ok(fields)
        } else {
            Err(metadata_fault(alloc))
        },
        Err(ReadFault::Bad { path, cause }) => Err(ConvertFault::Bad { path, cause }),
        Err(ReadFault::Memory) => Err(ConvertFault::Memory),
    }
}

/// The object in the version `to` of its resource.
fn converted(alloc: Global, view: &View, json: Value, to: &str) -> Result<Value, ConvertFault>
    ensures ok { IfOk result
        (λ v. IsConverted view.now.versions (tree_of json) to.now (tree_of v)) }
    ensures no_float { IfOk result (λ v. has_float (tree_of v) ≡ false) }
    ensures fault { IfErr result (IsTreeFault view.now.versions (tree_of json) to.now) }
{
    let Some(table) = table_of(view, &json) else {
        return Err(ConvertFault::UnknownVersion);
    };
    let fields = fields_of(alloc, table, &json)?;
    let (group, resource) = (table.group.bytes(), table.resource.bytes());
    let Some(target) = view.table_of_version(to, group, resource) else {
        return Err(ConvertFault::UnknownTarget);
    };
    versions_spell_alike(view);
    there_and_back(table, target, &fields);
    let metadata = taken(alloc, json, "metadata");
    Ok(whole_object(alloc, target, to, &fields, metadata)?)
}

/// The object whose text is given, in the version `to` of its resource, both versions by the release that is viewed.
/// The object is read as a stored one: an absent field stays absent, and members that the version doesn't know are
/// left out. Its metadata is copied as it is.
pub fn convert(alloc: Global, view: &View, object: &str, to: &str) -> Result<Value, ConvertFault>
    ensures ok { IfOk result (λ v. Converts view.now.versions object.now to.now (tree_of v)) }
    ensures no_float { IfOk result (λ v. has_float (tree_of v) ≡ false) }
    ensures fault { IfErr result (IsConvertFault view.now.versions object.now to.now) }
{
    match object_of(alloc, object.as_bytes())? {
        Some(json) => converted(alloc, view, json, to),
        None => Err(ConvertFault::NotAnObject),
    }
}
