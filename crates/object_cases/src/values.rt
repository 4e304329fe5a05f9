//! Values of fields from words.
use basis::Memory;
use fields::{FieldType, FieldValue, Form, TextList, is_default_of, is_form_of};
use minor_version::Text;
use std::alloc::Global;

pub(crate) fn type_named(word: &str) -> FieldType {
    match word {
        "Bool" => FieldType::Bool,
        "Int" => FieldType::Int,
        "Text" => FieldType::Text,
        _ => FieldType::TextList,
    }
}

pub(crate) fn form_named(word: &str) -> Form {
    match word {
        "Not" => Form::Not,
        "Decimal" => Form::Decimal,
        _ => Form::Same,
    }
}

fn push_text(alloc: Global, list: &mut TextList, word: &str) -> Result<(), Memory> {
    match Text::from_str(alloc, word) {
        Ok(text) => list.push(alloc, text),
        Err(memory) => Err(memory),
    }
}

fn push_texts(
    alloc: Global,
    list: &mut TextList,
    words: &str,
    between: char,
) -> Result<(), Memory> {
    for word in words.split(between) {
        match push_text(alloc, list, word) {
            Ok(()) => {}
            Err(memory) => return Err(memory),
        }
    }
    Ok(())
}

/// The texts between which the character stands.
pub(crate) fn texts_of(alloc: Global, words: &str, between: char) -> Result<TextList, Memory> {
    let mut list = TextList::new();
    match push_texts(alloc, &mut list, words, between) {
        Ok(()) => Ok(list),
        Err(memory) => Err(memory),
    }
}

fn text_value(alloc: Global, text: &str) -> Result<FieldValue, Memory> {
    match Text::from_str(alloc, text) {
        Ok(text) => Ok(FieldValue::Text(text)),
        Err(memory) => Err(memory),
    }
}

fn list_value(alloc: Global, words: &str) -> Result<FieldValue, Memory> {
    if words.is_empty() {
        return Ok(FieldValue::List(TextList::new()));
    }
    match texts_of(alloc, words, ',') {
        Ok(list) => Ok(FieldValue::List(list)),
        Err(memory) => Err(memory),
    }
}

/// The value that a type and a text say, as `Int 3`, `Text a` or `TextList a,b`.
pub(crate) fn value_of(alloc: Global, text: &str) -> Result<FieldValue, Memory> {
    let (ty, rest) = text.split_once(' ').unwrap_or((text, ""));
    match type_named(ty) {
        FieldType::Bool => Ok(FieldValue::Bool(rest == "true")),
        FieldType::Int => Ok(FieldValue::Int(rest.parse::<i64>().unwrap_or(0))),
        FieldType::Text => text_value(alloc, rest),
        FieldType::TextList => list_value(alloc, rest),
    }
}

/// Whether values of the type can be written in the form, as in `Bool Not`.
pub(crate) fn has_form(pair: &str) -> bool {
    let (ty, form) = pair.split_once(' ').unwrap_or((pair, ""));
    is_form_of(type_named(ty), form_named(form))
}

/// Whether a field of the type may have the default, as in `Int: Int 3`.
pub(crate) fn is_default(alloc: Global, pair: &str) -> Result<bool, Memory> {
    let (ty, value) = pair.split_once(": ").unwrap_or((pair, ""));
    match value_of(alloc, value) {
        Ok(value) => Ok(is_default_of(type_named(ty), &value)),
        Err(memory) => Err(memory),
    }
}
