//! What JSON trees read as.
ghost use Rattle.std.specs.Prelude.{◌≡◌, All, IfOk, OnOk, IfErr, Option};
ghost use Rattle.fields.specs.Fits.{Fits};
ghost use Rattle.fields.specs.Map.{IsMap};
ghost use Rattle.fields.specs.Table.{IdsRise, AreLawful, IsLawfulRow};
ghost use Rattle.fields.specs.declared.value.FieldValue.{FieldValue};
ghost use Rattle.serde_json.specs.View.{view};
ghost use Rattle.conversion.specs.Causes.{cause_of};
ghost use Rattle.conversion.specs.Code.{IsFaultOf, IsFaultAt, IsRowTaken};
ghost use Rattle.conversion.specs.Reading.{default_in, IsRead, Reads, IsReadFault};

use crate::fault::{ReadCause, ReadFault};
use crate::mode::Mode;
use crate::reach::reach;
use crate::value::spelled;
use basis::Memory;
use fields::{FieldRow, FieldType, FieldValue, Fields, Form, VersionTable, copy_of_texts};
use minor_version::Text;
use serde_json::Value;
use std::alloc::Global;

fn cause(row: &FieldRow) -> ReadCause
    ensures { result ≡ cause_of row.now.ty row.now.form }
{
    match row.ty {
        FieldType::Bool => ReadCause::NotBool,
        FieldType::Int => match row.form {
            Form::Decimal => ReadCause::NotDecimal,
            _ => ReadCause::NotInt,
        },
        FieldType::Text => ReadCause::NotText,
        FieldType::TextList => ReadCause::NotList,
    }
}

fn fault_at(alloc: Global, path: &[Text], cause: ReadCause) -> ReadFault
    ensures { IsFaultAt path.now cause result }
{
    match copy_of_texts(alloc, path) {
        Ok(path) => ReadFault::Bad { path, cause },
        Err(Memory) => ReadFault::Memory,
    }
}

fn default_of(alloc: Global, row: &FieldRow, mode: Mode) -> Result<Option<FieldValue>, Memory>
    ensures { IfOk result (λ o. o ≡ default_in mode row.now) }
{
    match mode {
        Mode::Stored => Ok(None),
        Mode::Body => if row.on {
            match &row.default {
                Some(value) => Ok(Some(value.duplicate(alloc)?)),
                None => Ok(None),
            }
        } else {
            Ok(None)
        },
    }
}

fn read_row(
    alloc: Global,
    row: &FieldRow,
    json: &Value,
    mode: Mode,
) -> Result<Option<FieldValue>, ReadFault>
    requires { IsLawfulRow row.now }
    ensures ok { IfOk result (IsRead mode (view json.now) row.now) }
    ensures bad { IfErr result (IsFaultOf (view json.now) row.now) }
{
    let path = row.path.items();
    match reach(json, path) {
        Ok(Some(there)) => match spelled(alloc, row, there)? {
            Some(value) => Ok(Some(value)),
            None => Err(fault_at(alloc, path, cause(row))),
        },
        Ok(None) => Ok(default_of(alloc, row, mode)?),
        Err(upto) => Err(fault_at(alloc, path.split_at(upto).0, ReadCause::NotObject)),
    }
}

// Reads the row's field into the map.
fn read_into(
    alloc: Global,
    fields: &mut Fields,
    row: &FieldRow,
    json: &Value,
    mode: Mode,
) -> Result<(), ReadFault>
    requires lawful { IsLawfulRow row.now }
    requires map { IsMap fields.old }
    ensures map { IsMap fields.new }
    ensures ok { OnOk result
        ((o : Option FieldValue) × IsRead mode (view json.now) row.now o × IsRowTaken row.now.id o fields.old fields.new) }
    ensures bad { IfErr result (IsFaultOf (view json.now) row.now) }
{
    let Some(value) = read_row(alloc, row, json, mode)? else {
        return Ok(());
    };
    let id = row.id.duplicate(alloc)?;
    fields.put(alloc, id, value)?;
    Ok(())
}

fn read_rows(
    alloc: Global,
    rows: &[FieldRow],
    json: &Value,
    mode: Mode,
) -> Result<Fields, ReadFault>
    requires lawful { All IsLawfulRow rows.now }
    requires rise { IdsRise rows.now }
    ensures ok { IfOk result (Reads mode rows.now (view json.now)) }
    ensures bad { IfErr result (IsReadFault mode rows.now (view json.now)) }
{
    let mut fields = Fields::new();
    for row in rows {
        match read_into(alloc, &mut fields, row, json, mode) {
            Ok(()) => {}
            Err(fault) => return Err(fault),
        }
    }
    Ok(fields)
}

/// What the JSON holds of the fields that the table spells. Members that no row names are nothing to it.
pub fn read_fields(
    alloc: Global,
    table: &VersionTable,
    json: &Value,
    mode: Mode,
) -> Result<Fields, ReadFault>
    requires { AreLawful table.now.rows }
    ensures ok { IfOk result (Reads mode table.now.rows (view json.now)) }
    ensures fits { IfOk result (Fits table.now.rows) }
    ensures bad { IfErr result (IsReadFault mode table.now.rows (view json.now)) }
{
    read_rows(alloc, table.rows.items(), json, mode)
}
