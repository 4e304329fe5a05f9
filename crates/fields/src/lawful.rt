//! Tests of the rules on paths, forms, defaults and tables.
ghost use Rattle.std.specs.Prelude.{◌↔◌, IsTrue, All, AllPairs, IfSome};
ghost use Rattle.std.specs.List.{slice_get};
ghost use Rattle.fields.specs.Table.{IsPath, IsFree, IsFieldPath, LeadsThrough, AreApart, IsFormOf, IsShort, IsDefaultOf, IsLawfulRow, AreLawful};

use crate::field::Form;
use crate::table::{FieldRow, FieldRows};
use crate::value::{FieldType, FieldValue};
use basis::is_camel_word;
use minor_version::Text;

fn is_path(path: &[Text]) -> bool
    ensures { IsTrue result ↔ IsPath path.now }
{
    !path.is_empty() && path.len() <= 8 && path.iter().all(|name| is_camel_word(name.bytes(), 32))
}

fn is_free(name: &Text) -> bool
    ensures { IsTrue result ↔ IsFree name.now }
{
    let name = name.as_str();
    name != "apiVersion" && name != "kind" && name != "metadata"
}

/// Whether the path doesn't begin at a member that each object has.
pub fn begins_free(path: &[Text]) -> bool
    ensures { IsTrue result ↔ IfSome (slice_get path.now 0) IsFree }
{
    match path.first() {
        Some(name) => is_free(name),
        None => true,
    }
}

/// Whether a field may have the path: one to eight names of members, of which the first is none that each object has.
pub fn is_field_path(path: &[Text]) -> bool
    ensures { IsTrue result ↔ IsFieldPath path.now }
{
    is_path(path) && begins_free(path)
}

fn leads_through(path: &[Text], front: &[Text]) -> bool
    ensures { IsTrue result ↔ LeadsThrough path.now front.now }
{
    path.starts_with(front)
}

/// Whether neither path leads through the other.
pub fn are_apart(one: &[Text], other: &[Text]) -> bool
    ensures { IsTrue result ↔ AreApart one.now other.now }
{
    !leads_through(one, other) && !leads_through(other, one)
}

/// Whether a value of the type can be written in the form.
pub fn is_form_of(ty: FieldType, form: Form) -> bool
    ensures { IsTrue result ↔ IsFormOf ty form }
{
    match form {
        Form::Same => true,
        Form::Not => ty == FieldType::Bool,
        Form::Decimal => ty == FieldType::Int,
    }
}

fn is_short(value: &FieldValue) -> bool
    ensures { IsTrue result ↔ IsShort value.now }
{
    match value {
        FieldValue::Text(text) => text.bytes().len() <= 1024,
        _ => true,
    }
}

/// Whether a field of the type may have this default.
pub fn is_default_of(ty: FieldType, value: &FieldValue) -> bool
    ensures { IsTrue result ↔ IsDefaultOf ty value.now }
{
    value.ty() == ty && ty != FieldType::TextList && is_short(value)
}

fn is_lawful_row(row: &FieldRow) -> bool
    ensures { IsTrue result ↔ IsLawfulRow row.now }
{
    let default = match &row.default {
        Some(value) => is_default_of(row.ty, value),
        None => true,
    };
    default && is_form_of(row.ty, row.form) && is_field_path(row.path.items())
}

fn rows_apart(one: &FieldRow, other: &FieldRow) -> bool
    ensures { IsTrue result ↔ AreApart one.now.path other.now.path }
{
    are_apart(one.path.items(), other.path.items())
}

fn stands_apart(row: &FieldRow, rows: &[FieldRow]) -> bool
    ensures { IsTrue result ↔ All (λ other. AreApart other.path row.now.path) rows.now }
{
    for other in rows {
        if !rows_apart(other, row) {
            return false;
        }
    }
    true
}

fn stand_apart(rows: &[FieldRow]) -> bool
    ensures { IsTrue result ↔ AllPairs (λ one other. AreApart one.path other.path) rows.now }
{
    for (i, row) in rows.iter().enumerate() {
        if !stands_apart(row, rows.split_at(i).0) {
            return false;
        }
    }
    true
}

fn each_is_lawful(rows: &[FieldRow]) -> bool
    ensures { IsTrue result ↔ All IsLawfulRow rows.now }
{
    rows.iter().all(|row| is_lawful_row(row))
}

fn rows_are_lawful(rows: &[FieldRow]) -> bool
    ensures { IsTrue result ↔ AreLawful rows.now }
{
    if rows.len() > 64 {
        return false;
    }
    each_is_lawful(rows) && stand_apart(rows)
}

impl FieldRows {
    /// Whether each row is lawful, they are at most 64, and no path is in another's way.
    pub fn are_lawful(&self) -> bool
        ensures { IsTrue result ↔ AreLawful self.now }
    {
        rows_are_lawful(self.items())
    }
}
