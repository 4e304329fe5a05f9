//! Whether fields are those of a table.
ghost use Rattle.std.specs.Prelude.{◌≡◌, ◌≢◌, ◌↔◌, IsTrue, All, IfSome};
ghost use Rattle.fields.specs.Fits.{Fits};
ghost use Rattle.fields.specs.Map.{value_at};
ghost use Rattle.fields.specs.Table.{IsValueOf};
ghost use Rattle.conversion.specs.Code.{AreNamed};

use fields::{FieldPair, FieldRow, Fields, VersionTable};

fn row_fits(row: &FieldRow, fields: &Fields) -> bool
    ensures { IsTrue result ↔ IfSome (value_at fields.now row.now.id) (IsValueOf row.now.ty) }
{
    match fields.get(row.id.bytes()) {
        Some(value) => value.ty() == row.ty,
        None => true,
    }
}

fn rows_fit(rows: &[FieldRow], fields: &Fields) -> bool
    ensures { IsTrue result ↔ All (λ row. IfSome (value_at fields.now row.id) (IsValueOf row.ty)) rows.now }
{
    rows.iter().all(|row| row_fits(row, fields))
}

fn is_unnamed(rows: &[FieldRow], id: &[u8]) -> bool
    ensures { IsTrue result ↔ All (λ row. row.id ≢ id.now) rows.now }
{
    rows.iter().all(|row| row.id.bytes() != id)
}

fn are_named(rows: &[FieldRow], pairs: &[FieldPair]) -> bool
    ensures { IsTrue result ↔ AreNamed rows.now pairs.now }
{
    for pair in pairs {
        if is_unnamed(rows, pair.id.bytes()) {
            return false;
        }
    }
    true
}

fn are_of(rows: &[FieldRow], fields: &Fields) -> bool
    ensures { IsTrue result ↔ Fits rows.now fields.now }
{
    rows_fit(rows, fields) && are_named(rows, fields.pairs())
}

/// Whether the fields are those of the table alone, each with a value that it can hold.
pub fn fits(table: &VersionTable, fields: &Fields) -> bool
    ensures { IsTrue result ↔ Fits table.now.rows fields.now }
{
    are_of(table.rows.items(), fields)
}
