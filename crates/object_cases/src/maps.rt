//! Maps of fields, and what changes leave of them.
use crate::values::value_of;
use basis::Memory;
use fields::{FieldValue, Fields};
use minor_version::Text;
use std::alloc::{AllocError, Global};

fn put(alloc: Global, fields: &mut Fields, id: &str, value: FieldValue) -> Result<(), Memory> {
    match Text::from_str(alloc, id) {
        Ok(id) => fields.put(alloc, id, value),
        Err(memory) => Err(memory),
    }
}

fn changed(alloc: Global, fields: &mut Fields, change: &str) -> Result<(), Memory> {
    let Some((id, value)) = change.split_once('=') else {
        fields.remove(change.as_bytes());
        return Ok(());
    };
    match value_of(alloc, value) {
        Ok(value) => put(alloc, fields, id, value),
        Err(memory) => Err(memory),
    }
}

fn change_all(alloc: Global, fields: &mut Fields, changes: &str) -> Result<(), Memory> {
    for change in changes.split("; ") {
        match changed(alloc, fields, change) {
            Ok(()) => {}
            Err(memory) => return Err(memory),
        }
    }
    Ok(())
}

/// The map that the changes leave, each as `id=Int 3`, or `id` where it is taken out.
fn map_of(alloc: Global, text: &str) -> Result<Fields, Memory> {
    let mut fields = Fields::new();
    match change_all(alloc, &mut fields, text) {
        Ok(()) => Ok(fields),
        Err(memory) => Err(memory),
    }
}

fn push_texts(text: &mut String, values: &[Text]) -> Result<(), AllocError> {
    for value in values {
        text.push_str("[")?;
        text.push_str(value.as_str())?;
        text.push_str("]")?;
    }
    Ok(())
}

fn push_number(text: &mut String, number: i64) -> Result<(), AllocError> {
    let mut buffer = itoa::Buffer::new();
    text.push_str(buffer.format(number))
}

fn push_value(text: &mut String, value: &FieldValue) -> Result<(), AllocError> {
    match value {
        FieldValue::Bool(value) => text.push_str(if *value { "true" } else { "false" }),
        FieldValue::Int(value) => push_number(text, *value),
        FieldValue::Text(value) => text.push_str(value.as_str()),
        FieldValue::List(values) => push_texts(text, values.items()),
    }
}

fn push_pairs(text: &mut String, fields: &Fields) -> Result<(), AllocError> {
    for pair in fields.pairs() {
        text.push_str(pair.id.as_str())?;
        text.push_str("=")?;
        push_value(text, &pair.value)?;
        text.push_str(" ")?;
    }
    Ok(())
}

fn told(alloc: Global, fields: &Fields) -> Result<String, Memory> {
    let mut text = String::new(alloc);
    match push_pairs(&mut text, fields) {
        Ok(()) => Ok(text),
        Err(_) => Err(Memory),
    }
}

/// What the map holds that the changes leave.
pub(crate) fn changes(alloc: Global, text: &str) -> Result<String, Memory> {
    match map_of(alloc, text) {
        Ok(fields) => told(alloc, &fields),
        Err(memory) => Err(memory),
    }
}

fn is_same(alloc: Global, fields: &Fields, other: &str) -> Result<bool, Memory> {
    match map_of(alloc, other) {
        Ok(other) => Ok(fields.same(&other)),
        Err(memory) => Err(memory),
    }
}

/// Whether two maps hold the same.
pub(crate) fn are_same(alloc: Global, pair: &str) -> Result<bool, Memory> {
    let (one, other) = pair.split_once(" | ").unwrap_or((pair, ""));
    match map_of(alloc, one) {
        Ok(fields) => is_same(alloc, &fields, other),
        Err(memory) => Err(memory),
    }
}
