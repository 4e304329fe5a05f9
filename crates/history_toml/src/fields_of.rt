//! The tables of fields and of their spellings.
ghost use Rattle.std.specs.Prelude.{◌≡◌, ◌++◌, [], ◌∷◌, OnOk, option_map, option_and_then, codes};
ghost use Rattle.toml.specs.Data.{string};
ghost use Rattle.history_toml.specs.Rows.{row_pairs};
ghost use Rattle.history_toml.specs.Tables.{field_pairs, spell_pairs, form_pairs, optional_pair, scalar_data, dotted as dotted_names};

use crate::entry::Entry;
use crate::members::{Row, Scalar, put, put_boolean, put_flag, put_release, put_text};
use crate::words::{dotted, type_word};
use basis::Memory;
use fields::{Field, FieldValue, Form, Spell};
use minor_version::Text;
use std::alloc::Global;

fn put_gate(alloc: Global, row: &mut Row, gate: &Option<Text>) -> Result<(), Memory>
    ensures { OnOk result
        (row_pairs row.new ≡ row_pairs row.old ++ optional_pair (codes "gate") (option_map string gate.now)) }
{
    match gate {
        Some(gate) => put_text(alloc, row, "gate", gate.as_str()),
        None => Ok(()),
    }
}

impl Entry for Field {
    ghost pairs = { field_pairs };

    fn to_row(&self, alloc: Global) -> Result<Row, Memory> {
        let mut row = Row::new(alloc);
        put_text(alloc, &mut row, "group", self.group.as_str())?;
        put_text(alloc, &mut row, "resource", self.resource.as_str())?;
        put_text(alloc, &mut row, "id", self.id.as_str())?;
        put_release(alloc, &mut row, "since", self.since)?;
        put_text(alloc, &mut row, "type", type_word(self.ty))?;
        put_flag(&mut row, "required", self.required)?;
        put_gate(alloc, &mut row, &self.gate)?;
        Ok(row)
    }
}

fn put_path(alloc: Global, row: &mut Row, path: &[Text]) -> Result<(), Memory>
    ensures { OnOk result
        (row_pairs row.new ≡ row_pairs row.old ++ (codes "path", string (dotted_names path.now)) ∷ []) }
{
    let text = dotted(alloc, path)?;
    put(row, "path", Scalar::Text(text))
}

fn put_form(alloc: Global, row: &mut Row, form: Form) -> Result<(), Memory>
    ensures { OnOk result (row_pairs row.new ≡ row_pairs row.old ++ form_pairs form) }
{
    match form {
        Form::Same => Ok(()),
        Form::Not => put_text(alloc, row, "form", "Not"),
        Form::Decimal => put_text(alloc, row, "form", "Decimal"),
    }
}

fn put_scalar(alloc: Global, row: &mut Row, value: &FieldValue) -> Result<(), Memory>
    ensures { OnOk result
        (row_pairs row.new ≡ row_pairs row.old ++ optional_pair (codes "default") (scalar_data value.now)) }
{
    match value {
        FieldValue::Bool(flag) => put_boolean(row, "default", *flag),
        FieldValue::Int(number) => put(row, "default", Scalar::Number(*number)),
        FieldValue::Text(text) => put_text(alloc, row, "default", text.as_str()),
        FieldValue::List(_) => Ok(()),
    }
}

fn put_default(alloc: Global, row: &mut Row, default: &Option<FieldValue>) -> Result<(), Memory>
    ensures { OnOk result
        (row_pairs row.new ≡ row_pairs row.old
        ++ optional_pair (codes "default") (option_and_then scalar_data default.now)) }
{
    match default {
        Some(value) => put_scalar(alloc, row, value),
        None => Ok(()),
    }
}

impl Entry for Spell {
    ghost pairs = { spell_pairs };

    fn to_row(&self, alloc: Global) -> Result<Row, Memory> {
        let mut row = Row::new(alloc);
        put_text(alloc, &mut row, "group", self.group.as_str())?;
        put_text(alloc, &mut row, "resource", self.resource.as_str())?;
        put_text(alloc, &mut row, "version", self.version.as_str())?;
        put_text(alloc, &mut row, "field", self.field.as_str())?;
        put_release(alloc, &mut row, "since", self.since)?;
        put_path(alloc, &mut row, self.path.items())?;
        put_form(alloc, &mut row, self.form)?;
        put_default(alloc, &mut row, &self.default)?;
        Ok(row)
    }
}
