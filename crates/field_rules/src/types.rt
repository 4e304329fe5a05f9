//! Tests of forms and defaults against the type of a field.
ghost use Rattle.std.specs.Prelude.{◌↔◌, IsTrue, IfSome};
ghost use Rattle.fields.specs.Table.{IsDefaultOf};
ghost use Rattle.schemas.specs.SpellRules.{FitsType};

use fields::{FieldType, Spell, is_default_of, is_form_of};

fn has_fit_default(ty: FieldType, spell: &Spell) -> bool
    ensures { IsTrue result ↔ IfSome spell.now.default (IsDefaultOf ty) }
{
    match &spell.default {
        Some(value) => is_default_of(ty, value),
        None => true,
    }
}

/// Whether the spelling's form and default fit the type.
pub fn fits_type(ty: FieldType, spell: &Spell) -> bool
    ensures { IsTrue result ↔ FitsType ty spell.now.form spell.now.default }
{
    is_form_of(ty, spell.form) && has_fit_default(ty, spell)
}
