use crate::value::{FieldType, FieldValue};
use basis::Sequence;
use minor_version::{Minor, Text};

/// The members through which a field is reached in an object, from the outermost on.
pub type Path = Sequence<Text>;

/// How a field's value is written in an object.
#[derive(Clone, Copy, Debug, PartialEq, Eq)]
pub enum Form {
    /// As it is.
    Same,
    /// A boolean, as its opposite.
    Not,
    /// A whole number, as a text in decimal.
    Decimal,
}

/// A field of a resource, dated by the release since which the resource has it.
#[derive(Debug, Drop)]
pub struct Field {
    pub group: Text,
    pub resource: Text,
    pub id: Text,
    pub since: Minor,
    pub ty: FieldType,
    pub required: bool,
    /// The feature gate that guards the field.
    pub gate: Option<Text>,
}

/// How a version of a resource spells a field: at which path, in which form, and which value stands for an absent one.
#[derive(Debug, Drop)]
pub struct Spell {
    pub group: Text,
    pub resource: Text,
    pub version: Text,
    pub field: Text,
    pub since: Minor,
    pub path: Path,
    pub form: Form,
    pub default: Option<FieldValue>,
}

/// Fields, in document order.
pub type FieldList = Sequence<Field>;

/// Spellings, in document order.
pub type SpellList = Sequence<Spell>;
