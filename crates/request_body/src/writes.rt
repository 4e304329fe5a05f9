//! The fields that a body gives, and what they lack.
ghost use Rattle.std.specs.Prelude.{◌↔◌, All, IsTrue, IfOk, IfErr, IfSome, IfNone, option_copied};
ghost use Rattle.conversion.specs.Reading.{IsReadFault};
ghost use Rattle.conversion.specs.declared.mode.Mode.TheVariants.{Body};
ghost use Rattle.fields.specs.Fits.{Fits};
ghost use Rattle.request_body.specs.Writes.{AreGivenBy, IsProvided, IsMissing, IsFirstMissing};
ghost use Rattle.serde_json.specs.View.{view};

use crate::place::Place;
use conversion::{Mode, ReadFault, read_fields};
use field_drop::drop_fields;
use fields::{FieldRow, Fields, VersionTable};
use serde_json::Value;
use std::alloc::Global;

/// The fields that a body gives an object at the place, where `stored` is what the object holds already: those that are
/// read of the body, with defaults, but for those that are off and not stored. They fit the version's table. The fault
/// is that of reading (`conversion::read_fields`).
pub fn fields_given(
    alloc: Global,
    place: Place<'_>,
    tree: &Value,
    stored: Option<&Fields>,
) -> Result<Fields, ReadFault>
    ensures ok { IfOk result
        (AreGivenBy place.entry.of.table.now.rows (view tree.now) (option_copied stored.entry)) }
    ensures fits { IfOk result (Fits place.entry.of.table.now.rows) }
    ensures bad { IfErr result (IsReadFault Body place.entry.of.table.now.rows (view tree.now)) }
{
    let table = place.of.table;
    let mut fields = read_fields(alloc, table, tree, Mode::Body)?;
    drop_fields(&mut fields, stored, table);
    Ok(fields)
}

fn is_missing(row: &FieldRow, fields: &Fields) -> bool
    ensures { IsTrue result ↔ IsMissing fields.now row.now }
{
    row.required && fields.get(row.id.bytes()).is_none()
}

fn first_missing_of<'a>(rows: &'a [FieldRow], fields: &Fields) -> Option<&'a FieldRow>
    ensures some { IfSome result (λ row. IsFirstMissing rows.now fields.now row.now) }
    ensures none { IfNone result (All (IsProvided fields.now) rows.now) }
{
    for row in rows {
        if is_missing(row, fields) {
            return Some(row);
        }
    }
    None
}

/// The row of the first required field that isn't there, if there is one.
pub fn first_missing<'a>(table: &'a VersionTable, fields: &Fields) -> Option<&'a FieldRow>
    ensures some { IfSome result (λ row. IsFirstMissing table.now.rows fields.now row.now) }
    ensures none { IfNone result (All (IsProvided fields.now) table.now.rows) }
{
    first_missing_of(table.rows.items(), fields)
}
