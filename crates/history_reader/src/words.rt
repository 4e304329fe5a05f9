//! The words of types and forms, paths as texts, and values that stand in a document.
ghost use Rattle.std.specs.Prelude.{◌≡◌, ◌↔◌, IsTrue, IfOk, IfSome, IsSomeAnd, All, MatchOption, length, map};
ghost use Rattle.basis.specs.Names.{BeginsLower, IsLetterOrDigit};
ghost use Rattle.toml.specs.View.{view};
ghost use Rattle.fields.specs.Table.{IsPath};
ghost use Rattle.schemas.specs.Shapes.{IsScalar};
ghost use Rattle.history_reader.specs.Demands.{IsTypeWord, IsFormWord};
ghost use Rattle.history_reader.specs.Words.{type_word, form_word, path_in as path_parts, scalar_in as scalar};

use basis::{Memory, is_camel_word};
use fields::{FieldType, FieldValue, Form, Path};
use minor_version::Text;
use std::alloc::{AllocError, Global};
use toml::Value;

/// How many members a path has at most.
const LONGEST_PATH: usize = 8;

/// The greatest length of a member's name in a path, in bytes.
const LONGEST_SEGMENT: usize = 32;

/// The type that the word names.
pub fn type_named(word: &str) -> Option<FieldType>
    ensures { MatchOption result (¬ IsTypeWord word.now) (λ ty. word.now ≡ type_word ty) }
{
    match word {
        "Bool" => Some(FieldType::Bool),
        "Int" => Some(FieldType::Int),
        "Text" => Some(FieldType::Text),
        "TextList" => Some(FieldType::TextList),
        _ => None,
    }
}

/// The form that the word names.
pub fn form_named(word: &str) -> Option<Form>
    ensures { MatchOption result (¬ IsFormWord word.now) (λ form. word.now ≡ form_word form) }
{
    match word {
        "Same" => Some(Form::Same),
        "Not" => Some(Form::Not),
        "Decimal" => Some(Form::Decimal),
        _ => None,
    }
}

fn are_segments(text: &str) -> bool
    ensures { IsTrue result ↔ All (BeginsLower 32 IsLetterOrDigit) (path_parts text.now) }
{
    text.split('.').all(|segment| is_camel_word(segment.as_bytes(), LONGEST_SEGMENT))
}

fn count_segments(text: &str) -> usize
    ensures { result ≡ length (path_parts text.now) }
{
    text.split('.').count()
}

/// Whether the text tells a path: one to eight segments between dots, each a lower-case letter and then letters and
/// digits, of at most 32 bytes.
pub fn is_path_text(text: &str) -> bool
    ensures { IsTrue result ↔ IsPath (path_parts text.now) }
{
    count_segments(text) <= LONGEST_PATH && are_segments(text)
}

// The segments between the dots.
fn segments(alloc: Global, text: &str) -> Result<Vec<&str>, AllocError>
    ensures { IfOk result (λ v. map (λ s. s.now) v.items ≡ path_parts text.now) }
{
    text.split('.').collect(alloc)
}

fn path_of(alloc: Global, segments: &[&str]) -> Result<Path, Memory>
    ensures { IfOk result (λ path. path ≡ map (λ s. s.now) segments.now) }
{
    let mut path = Path::new();
    for segment in segments {
        let segment = Text::from_str(alloc, segment)?;
        path.push(alloc, segment)?;
    }
    Ok(path)
}

/// The path that the text tells.
pub fn path_in(alloc: Global, text: &str) -> Result<Path, Memory>
    ensures { IfOk result (λ path. path ≡ path_parts text.now) }
{
    match segments(alloc, text) {
        Ok(segments) => path_of(alloc, &segments),
        Err(_) => Err(Memory),
    }
}

/// Whether the value is a boolean, a whole number or a text.
pub fn is_scalar(value: &Value) -> bool
    ensures { IsTrue result ↔ IsSomeAnd (scalar (view value.now)) IsScalar }
{
    match value {
        Value::Boolean(_) => true,
        Value::Integer(number) => {
            let _number = *number;
            true
        }
        Value::String(text) => {
            let _text = text.as_str();
            true
        }
        _ => false,
    }
}

/// The value of a field that a boolean, a whole number or a text is, or none for another value.
pub fn scalar_in(alloc: Global, value: &Value) -> Result<Option<FieldValue>, Memory>
    ensures value { IfOk result (λ found. found ≡ scalar (view value.now)) }
    ensures shaped { IfOk result (λ found. IfSome found IsScalar) }
{
    match value {
        Value::Boolean(flag) => Ok(Some(FieldValue::Bool(*flag))),
        Value::Integer(number) => Ok(Some(FieldValue::Int(*number))),
        Value::String(text) => Ok(Some(FieldValue::Text(Text::from_str(alloc, text.as_str())?))),
        _ => Ok(None),
    }
}
