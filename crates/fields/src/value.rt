ghost use Rattle.std.specs.Prelude.{◌≡◌, ◌↔◌, IsTrue, IfOk};
ghost use Rattle.fields.specs.Table.{type_of, IsValue};

use basis::{Memory, Sequence};
use minor_version::Text;
use std::alloc::Global;

/// What a field holds.
#[derive(Clone, Copy, Debug, PartialEq, Eq)]
pub enum FieldType {
    Bool,
    Int,
    Text,
    TextList,
}

/// Texts, in order.
pub type TextList = Sequence<Text>;

/// A value of a field.
#[derive(Debug, Drop)]
pub enum FieldValue {
    Bool(bool),
    Int(i64),
    Text(Text),
    List(TextList),
}

/// A copy of the texts.
pub fn copy_of_texts(alloc: Global, texts: &[Text]) -> Result<TextList, Memory>
    ensures { IfOk result (λ l. l ≡ texts.now) }
{
    let mut copies = TextList::new();
    for text in texts {
        let copy = text.duplicate(alloc)?;
        copies.push(alloc, copy)?;
    }
    Ok(copies)
}

impl FieldValue {
    /// The type of the value.
    pub fn ty(&self) -> FieldType
        ensures ty { result ≡ type_of self.now }
        ensures value { IsValue self.now }
    {
        match self {
            FieldValue::Bool(_) => FieldType::Bool,
            FieldValue::Int(number) => {
                let _number = *number;
                FieldType::Int
            }
            FieldValue::Text(_) => FieldType::Text,
            FieldValue::List(_) => FieldType::TextList,
        }
    }

    /// A copy of the value.
    pub fn duplicate(&self, alloc: Global) -> Result<Self, Memory>
        ensures { IfOk result (λ v. v ≡ self.now) }
    {
        match self {
            FieldValue::Bool(value) => Ok(FieldValue::Bool(*value)),
            FieldValue::Int(value) => Ok(FieldValue::Int(*value)),
            FieldValue::Text(text) => Ok(FieldValue::Text(text.duplicate(alloc)?)),
            FieldValue::List(texts) => Ok(FieldValue::List(copy_of_texts(alloc, texts.items())?)),
        }
    }

    /// Whether both are the same value.
    pub fn same(&self, other: &FieldValue) -> bool
        ensures { IsTrue result ↔ (self.now ≡ other.now) }
    {
        match (self, other) {
            (FieldValue::Bool(one), FieldValue::Bool(other)) => *one == *other,
            (FieldValue::Int(one), FieldValue::Int(other)) => *one == *other,
            (FieldValue::Text(one), FieldValue::Text(other)) => one == other,
            (FieldValue::List(one), FieldValue::List(other)) => one.items() == other.items(),
            _ => false,
        }
    }
}
