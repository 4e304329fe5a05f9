//! Tests of the shapes that the texts of a history have.
ghost use Rattle.std.specs.Prelude.{◌↔◌, IsTrue};
ghost use Rattle.schemas.specs.Shapes.{IsGateName, IsGroup, IsResource, IsKind, IsFieldId};

use basis::{is_camel_word, is_dotted_labels, is_lower_word, is_pascal_word};

/// The greatest length of a name in a history, in bytes.
const LONGEST_NAME: usize = 63;

/// Whether the text can name a feature gate: an upper-case letter, then letters and digits, at most 63 bytes, and
/// neither `AllAlpha` nor `AllBeta`.
pub fn is_gate_name(text: &[u8]) -> bool
    ensures { IsTrue result ↔ IsGateName text.now }
{
    is_pascal_word(text, LONGEST_NAME) && !matches!(text, b"AllAlpha" | b"AllBeta")
}

/// Whether the text can name an API group: empty for the core group, else labels (RFC 1123) joined by dots, in all at
/// most 63 bytes.
pub fn is_group(text: &[u8]) -> bool
    ensures { IsTrue result ↔ IsGroup text.now }
{
    text.len() <= LONGEST_NAME && (text.is_empty() || is_dotted_labels(text))
}

/// Whether the text can name a resource, or be its singular: a lower-case letter, then lower-case letters and digits,
/// at most 63 bytes.
pub fn is_resource(text: &[u8]) -> bool
    ensures { IsTrue result ↔ IsResource text.now }
{
    is_lower_word(text, LONGEST_NAME)
}

/// Whether the text can name a kind: an upper-case letter, then letters and digits, at most 63 bytes.
pub fn is_kind(text: &[u8]) -> bool
    ensures { IsTrue result ↔ IsKind text.now }
{
    is_pascal_word(text, LONGEST_NAME)
}

/// Whether the text can be the id of a field: a lower-case letter, then letters and digits, at most 63 bytes.
pub fn is_field_id(text: &[u8]) -> bool
    ensures { IsTrue result ↔ IsFieldId text.now }
{
    is_camel_word(text, LONGEST_NAME)
}
