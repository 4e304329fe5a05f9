//! The value that JSON spells.
ghost use Rattle.std.specs.Prelude.{◌≡◌, ◌≢◌, ℤ, List, ℕ, Bool, IfOk, IfSome, IfNone, map};
ghost use Rattle.fields.specs.Table.{IsFormOf, IsInt64};
ghost use Rattle.fields.specs.declared.value.FieldType.{FieldType};
ghost use Rattle.fields.specs.declared.value.FieldValue.{FieldValue};
ghost use Rattle.serde_json.specs.Data.{number, string, array};
ghost use Rattle.serde_json.specs.Find.{of_integer};
ghost use Rattle.serde_json.specs.View.{view, items_of};
ghost use Rattle.conversion.specs.Code.{IsSpelledAs, IsTextsOf};
ghost use Rattle.conversion.specs.Writing.{IsWrittenIn};

use crate::decimal::whole_of_text;
use basis::Memory;
use fields::{FieldRow, FieldType, FieldValue, Form, TextList};
use minor_version::Text;
use serde_json::Value;
use std::alloc::Global;

fn bool_of(form: Form, json: &Value) -> Option<bool>
    requires { IsFormOf FieldType.Bool form }
    ensures some { IfSome result (λ b. IsWrittenIn form (FieldValue.Bool b) (view json.now)) }
    ensures none { IfNone result ((b : Bool) → ¬ IsWrittenIn form (FieldValue.Bool b) (view json.now)) }
{
    let value = json.as_bool()?;
    Some(match form {
        Form::Not => !value,
        _ => value,
    })
}

// The number, where it is whole and has at most 64 bits.
fn whole_of(json: &Value) -> Option<i64>
    ensures some { IfSome result (λ z. IsInt64 z × (view json.now ≡ number (of_integer z))) }
    ensures none { IfNone result ((z : ℤ) → IsInt64 z → view json.now ≢ number (of_integer z)) }
{
    match json.as_number() {
        Some(number) => number.as_i64(),
        None => None,
    }
}

fn int_of(form: Form, json: &Value) -> Option<i64>
    requires { IsFormOf FieldType.Int form }
    ensures some { IfSome result (λ z. IsWrittenIn form (FieldValue.Int z) (view json.now)) }
    ensures none { IfNone result ((z : ℤ) → ¬ IsWrittenIn form (FieldValue.Int z) (view json.now)) }
{
    match form {
        Form::Decimal => match json.as_str() {
            Some(text) => whole_of_text(text),
            None => None,
        },
        _ => whole_of(json),
    }
}

fn text_of(alloc: Global, json: &Value) -> Result<Option<Text>, Memory>
    ensures some { IfOk result (λ o. IfSome o (λ t. view json.now ≡ string t)) }
    ensures none { IfOk result (λ o. IfNone o ((t : List ℕ) → view json.now ≢ string t)) }
{
    match json.as_str() {
        Some(text) => Ok(Some(Text::from_str(alloc, text)?)),
        None => Ok(None),
    }
}

fn texts_of(alloc: Global, items: &[Value]) -> Result<Option<TextList>, Memory>
    ensures { IfOk result (IsTextsOf items.now) }
{
    let mut texts = TextList::new();
    for item in items {
        match text_of(alloc, item) {
            Ok(Some(text)) => {
                let Ok(()) = texts.push(alloc, text) else {
                    return Err(Memory);
                };
            }
            Ok(None) => return Ok(None),
            Err(Memory) => return Err(Memory),
        }
    }
    Ok(Some(texts))
}

fn list_of(alloc: Global, json: &Value) -> Result<Option<TextList>, Memory>
    ensures some { IfOk result (λ o. IfSome o (λ ts. view json.now ≡ array (items_of (map string ts)))) }
    ensures none { IfOk result (λ o. IfNone o ((ts : List (List ℕ)) → view json.now ≢ array (items_of (map string ts)))) }
{
    match json.as_array() {
        Some(items) => texts_of(alloc, items.as_slice()),
        None => Ok(None),
    }
}

/// The value of the row's field that the JSON spells, if it spells one.
pub(crate) fn spelled(
    alloc: Global,
    row: &FieldRow,
    json: &Value,
) -> Result<Option<FieldValue>, Memory>
    requires { IsFormOf row.now.ty row.now.form }
    ensures { IfOk result (IsSpelledAs row.now (view json.now)) }
{
    match row.ty {
        FieldType::Bool => Ok(bool_of(row.form, json).map(|b| FieldValue::Bool(b))),
        FieldType::Int => Ok(int_of(row.form, json).map(|n| FieldValue::Int(n))),
        FieldType::Text => Ok(text_of(alloc, json)?.map(|text| FieldValue::Text(text))),
        FieldType::TextList => Ok(list_of(alloc, json)?.map(|texts| FieldValue::List(texts))),
    }
}
