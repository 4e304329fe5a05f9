//! Values of fields as JSON.
ghost use Rattle.std.specs.Prelude.{◌≡◌, IfOk, map};
ghost use Rattle.fields.specs.Table.{type_of, IsFormOf};
ghost use Rattle.fields.specs.declared.value.FieldValue.{FieldValue};
ghost use Rattle.serde_json.specs.Data.{string};
ghost use Rattle.serde_json.specs.View.{view};
ghost use Rattle.conversion.specs.Writing.{IsWrittenIn};

use fields::{FieldValue, Form};
use itoa::Buffer;
use minor_version::Text;
use serde_json::Value;
use std::alloc::{AllocError, Global};

fn written_bool(form: Form, value: bool) -> Value
    requires { IsFormOf (type_of (FieldValue.Bool value)) form }
    ensures { IsWrittenIn form (FieldValue.Bool value) (view result) }
{
    match form {
        Form::Not => Value::Bool(!value),
        _ => Value::Bool(value),
    }
}

fn written_int(alloc: Global, form: Form, value: i64) -> Result<Value, AllocError>
    requires { IsFormOf (type_of (FieldValue.Int value)) form }
    ensures { IfOk result (λ v. IsWrittenIn form (FieldValue.Int value) (view v)) }
{
    match form {
        Form::Decimal => {
            let mut buffer = Buffer::new();
            Value::try_from_str(alloc, buffer.format(value))
        }
        _ => Ok(Value::from(value)),
    }
}

fn written_texts(alloc: Global, texts: &[Text]) -> Result<Vec<Value>, AllocError>
    ensures { IfOk result (λ v. map view v.items ≡ map string texts.now) }
{
    let mut values = Vec::new(alloc);
    for text in texts {
        let value = Value::try_from_str(alloc, text.as_str())?;
        values.push(value)?;
    }
    Ok(values)
}

/// The value in the form.
pub(crate) fn written(alloc: Global, form: Form, value: &FieldValue) -> Result<Value, AllocError>
    requires { IsFormOf (type_of value.now) form }
    ensures { IfOk result (λ v. IsWrittenIn form value.now (view v)) }
{
    match value {
        FieldValue::Bool(value) => Ok(written_bool(form, *value)),
        FieldValue::Int(value) => written_int(alloc, form, *value),
        FieldValue::Text(text) => Value::try_from_str(alloc, text.as_str()),
        FieldValue::List(texts) => Ok(Value::Array(written_texts(alloc, texts.items())?)),
    }
}
