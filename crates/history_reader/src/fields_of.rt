//! The entries of the arrays `field` and `spell`.
ghost use Rattle.std.specs.Prelude.{◌≡◌, IfOk, IfSome, IsSome, IsSomeAnd, option_and_then, unwrap_or};
ghost use Rattle.toml.specs.Data.{get_member};
ghost use Rattle.toml.specs.View.{table_view};
ghost use Rattle.schemas.specs.Shapes.{IsScalar, IsShapedField, IsShapedSpell};
ghost use Rattle.history_reader.specs.Demands.{IsTypeWord, IsFormWord};
ghost use Rattle.history_reader.specs.Names.{member_name};
ghost use Rattle.history_reader.specs.Rows.{field_rows, spell_rows};
ghost use Rattle.history_reader.specs.Tree.{text_at};
ghost use Rattle.history_reader.specs.Meaning.{IsFieldEntry, IsSpellEntry, HoldsForm};
ghost use Rattle.history_reader.specs.Words.{type_word, scalar_in as scalar};

use crate::entries::Entry;
use crate::member::Member;
use crate::tree::{flag_member, release_of, text_member, text_of, value_of};
use crate::words::{form_named, path_in, scalar_in, type_named};
use basis::Memory;
use fields::{Field, FieldType, FieldValue, Form, Spell};
use minor_version::Text;
use std::alloc::Global;
use toml::Table;

/// A copy of the text of a member that is missing or holds one.
fn optional_text(alloc: Global, table: &Table, member: Member) -> Result<Option<Text>, Memory>
    ensures { IfOk result (λ found. text_at (member_name member) (table_view table.now) ≡ found) }
{
    match text_member(table, member) {
        Some(text) => Ok(Some(Text::from_str(alloc, text)?)),
        None => Ok(None),
    }
}

/// The type of a member that holds its word.
fn type_of(table: &Table, member: Member) -> FieldType
    requires { IsSomeAnd (text_at (member_name member) (table_view table.now)) IsTypeWord }
    ensures { text_at (member_name member) (table_view table.now) ≡ Some (type_word result) }
{
    type_named(text_of(table, member)).unwrap()
}

/// The form of a member that is missing or holds its word.
fn form_of(table: &Table, member: Member) -> Form
    requires { IfSome (text_at (member_name member) (table_view table.now)) IsFormWord }
    ensures { HoldsForm (member_name member) (table_view table.now) result }
{
    match text_member(table, member) {
        Some(word) => form_named(word).unwrap(),
        None => Form::Same,
    }
}

/// The value of a member that is missing or holds one.
fn scalar_of(alloc: Global, table: &Table, member: Member) -> Result<Option<FieldValue>, Memory>
    ensures value { IfOk result
        (λ found. option_and_then scalar (get_member (member_name member) (table_view table.now))
        ≡ found) }
    ensures shaped { IfOk result (λ found. IfSome found IsScalar) }
{
    match value_of(table, member) {
        Some(value) => scalar_in(alloc, value),
        None => Ok(None),
    }
}

impl Entry for Field {
    ghost rows = { λ table. field_rows };

    ghost is_entry = { IsFieldEntry };

    ghost is_shaped = { IsShapedField };

    fn from_table(alloc: Global, table: &Table) -> Result<Field, Memory> {
        let group = Text::from_str(alloc, text_of(table, Member::Group))?;
        let resource = Text::from_str(alloc, text_of(table, Member::Resource))?;
        let id = Text::from_str(alloc, text_of(table, Member::Id))?;
        let since = release_of(table, Member::Since);
        let ty = type_of(table, Member::FieldType);
        let required = flag_member(table, Member::Required).unwrap_or(false);
        let gate = optional_text(alloc, table, Member::Gate)?;
        Ok(Field {
            group,
            resource,
            id,
            since,
            ty,
            required,
            gate,
        })
    }
}

impl Entry for Spell {
    ghost rows = { λ table. spell_rows };

    ghost is_entry = { IsSpellEntry };

    ghost is_shaped = { IsShapedSpell };

    fn from_table(alloc: Global, table: &Table) -> Result<Spell, Memory> {
        let group = Text::from_str(alloc, text_of(table, Member::Group))?;
        let resource = Text::from_str(alloc, text_of(table, Member::Resource))?;
        let version = Text::from_str(alloc, text_of(table, Member::Version))?;
        let field = Text::from_str(alloc, text_of(table, Member::Field))?;
        let since = release_of(table, Member::Since);
        let path = path_in(alloc, text_of(table, Member::Path))?;
        let form = form_of(table, Member::Form);
        let default = scalar_of(alloc, table, Member::Default)?;
        Ok(Spell {
            group,
            resource,
            version,
            field,
            since,
            path,
            form,
            default,
        })
    }
}
