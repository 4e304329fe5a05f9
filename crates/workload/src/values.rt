//! The fields that an object is given by draws.
ghost use Rattle.std.specs.Prelude.{◌≡◌, ◌<◌, ◌≤◌, [], ◌∷◌, ◌++◌, IfOk, OnOk, codes, decimal, string_bytes, take};
ghost use Rattle.fields.specs.Fits.{Fits};
ghost use Rattle.fields.specs.Map.{IsMap};
ghost use Rattle.fields.specs.Table.{IdsRise};
ghost use Rattle.workload.specs.Draws.{next, draw};
ghost use Rattle.workload.specs.Values.{behind_choice, behind_field, behind_fields, fields_of, has_value, value_of};

use crate::draws::Draws;
use basis::Memory;
use fields::{FieldRow, FieldType, FieldValue, Fields, TextList};
use minor_version::Text;
use std::alloc::{AllocError, Global};

fn lettered(alloc: Global, letter: &str, number: usize) -> Result<String, AllocError>
    ensures { IfOk result (λ s. string_bytes s ≡ letter.now ++ decimal number) }
{
    format!(in alloc; "{letter}{number}")
}

/// The letter, and behind it the number in decimal.
pub(crate) fn numbered_text(alloc: Global, letter: &str, number: usize) -> Result<Text, Memory>
    ensures { IfOk result (λ t. t ≡ letter.now ++ decimal number) }
{
    let text = lettered(alloc, letter, number)?;
    Text::from_str(alloc, text.as_str())
}

// So many texts, of two.
fn texts(alloc: Global, count: usize) -> Result<TextList, Memory>
    requires { count < 3 }
    ensures { IfOk result (λ l. l ≡ take count (codes "l0" ∷ codes "l1" ∷ [])) }
{
    let mut texts = TextList::new();
    if count > 0 {
        let text = Text::from_str(alloc, "l0")?;
        texts.push(alloc, text)?;
    }
    if count > 1 {
        let text = Text::from_str(alloc, "l1")?;
        texts.push(alloc, text)?;
    }
    Ok(texts)
}

// A value of the type, by one draw.
fn value(alloc: Global, ty: FieldType, draws: &mut Draws) -> Result<FieldValue, Memory>
    ensures value { IfOk result (λ v. v ≡ value_of ty draws.old.x) }
    ensures after { OnOk result (draws.new.x ≡ next draws.old.x) }
{
    Ok(match ty {
        FieldType::Bool => FieldValue::Bool(draws.draw(2) == 1),
        FieldType::Int => FieldValue::Int(draws.draw(1_000) as i64),
        FieldType::Text => FieldValue::Text(numbered_text(alloc, "t", draws.draw(100))?),
        FieldType::TextList => FieldValue::List(texts(alloc, draws.draw(3))?),
    })
}

// Whether the field has a value; for a required one nothing is drawn.
fn is_taken(row: &FieldRow, draws: &mut Draws) -> bool
    ensures value { result ≡ has_value row.now draws.old.x }
    ensures after { draws.new.x ≡ behind_choice row.now draws.old.x }
{
    row.required || draws.draw(2) == 1
}

// Puts the value behind the others, whose ids are lower.
fn append(alloc: Global, fields: &mut Fields, id: Text, value: FieldValue) -> Result<(), Memory>
    requires { IsMap (fields.old ++ record { id = id; value = value } ∷ []) }
    ensures { OnOk result (fields.new ≡ fields.old ++ record { id = id; value = value } ∷ []) }
{
    fields.put(alloc, id, value)
}

/// The fields that have values, one row after another.
pub(crate) fn drawn_fields(
    alloc: Global,
    rows: &[FieldRow],
    draws: &mut Draws,
) -> Result<Fields, Memory>
    requires { IdsRise rows.now }
    ensures value { IfOk result (λ f. f ≡ fields_of rows.now draws.old.x) }
    ensures after { OnOk result (draws.new.x ≡ behind_fields rows.now draws.old.x) }
    ensures fits { IfOk result (λ f. Fits rows.now f) }
{
    let mut fields = Fields::new();
    for row in rows {
        if is_taken(row, draws) {
            let value = value(alloc, row.ty, draws)?;
            append(alloc, &mut fields, row.id.duplicate(alloc)?, value)?;
        }
    }
    Ok(fields)
}
