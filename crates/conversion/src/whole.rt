//! Whole objects that show fields.
ghost use Rattle.std.specs.Prelude.{◌≡◌, ◌<◌, ◌≤◌, false, IfOk, IfSome, OnOk, option_map};
ghost use Rattle.conversion.specs.Code.{with_some};
ghost use Rattle.conversion.specs.Reading.{Reads};
ghost use Rattle.conversion.specs.Whole.{IsWhole};
ghost use Rattle.conversion.specs.declared.mode.Mode.TheVariants.{Stored};
ghost use Rattle.fields.specs.Fits.{Fits};
ghost use Rattle.fields.specs.Table.{AreLawful};
ghost use Rattle.serde_json.specs.Data.{depth, put, string};
ghost use Rattle.serde_json.specs.Read.{max_depth};
ghost use Rattle.serde_json.specs.View.{view, members_view};
ghost use Rattle.serde_json.specs.Written.{has_float};

use crate::show::{members_of, show_fields};
use basis::Memory;
use fields::{Fields, VersionTable};
use serde_json::{Map, Value, put};
use std::alloc::{AllocError, Global};

fn put_text(
    alloc: Global,
    members: &mut Map<String, Value>,
    name: &str,
    text: &str,
) -> Result<(), AllocError>
    ensures { OnOk result
        (members_view members.new.entries ≡ put name.now (string text.now) (members_view members.old.entries)) }
{
    let text = Value::try_from_str(alloc, text)?;
    put(members, alloc, name, text)
}

fn put_some(
    alloc: Global,
    members: &mut Map<String, Value>,
    name: &str,
    value: Option<Value>,
) -> Result<(), AllocError>
    ensures { OnOk result
        (members_view members.new.entries ≡ with_some name.now (option_map view value) (members_view members.old.entries)) }
{
    match value {
        Some(value) => put(members, alloc, name, value),
        None => Ok(()),
    }
}

/// The whole object, of this version and the table's kind, that shows the fields, with this metadata if there is some. Read
/// as a stored one, it gives the same fields; and its text can be read again where its metadata nests less deep than
/// `serde_json` reads.
pub fn whole_object(
    alloc: Global,
    table: &VersionTable,
    version: &str,
    fields: &Fields,
    metadata: Option<Value>,
) -> Result<Value, Memory>
    requires lawful { AreLawful table.now.rows }
    requires fits { Fits table.now.rows fields.now }
    requires no_float { IfSome metadata (λ v. has_float (view v) ≡ false) }
    ensures whole { IfOk result (λ v. IsWhole table.now version.now fields.now (option_map view metadata) (view v)) }
    ensures no_float { IfOk result (λ v. has_float (view v) ≡ false) }
    ensures reads_back { IfOk result (λ v. Reads Stored table.now.rows (view v) fields.now) }
    ensures shallow { IfOk result
        (λ v. IfSome metadata (λ own. depth (view own) < max_depth) → depth (view v) ≤ max_depth) }
{
    let shown = show_fields(alloc, table, fields)?;
    let mut members = members_of(alloc, Some(shown));
    put_text(alloc, &mut members, "apiVersion", version)?;
    put_text(alloc, &mut members, "kind", table.kind.as_str())?;
    put_some(alloc, &mut members, "metadata", metadata)?;
    Ok(Value::Object(members))
}
