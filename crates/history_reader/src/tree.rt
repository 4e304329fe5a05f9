//! What stands in the tree of a document.
ghost use Rattle.std.specs.Prelude.{◌≡◌, Some, IsSome, IsSomeAnd, option_map};
ghost use Rattle.toml.specs.View.{view, table_view, items_view};
ghost use Rattle.toml.specs.Data.{get_member, as_table};
ghost use Rattle.schemas.specs.Arrays.{array_name};
ghost use Rattle.history_reader.specs.Names.{member_name};
ghost use Rattle.history_reader.specs.Tree.{IsReleaseAt, text_at, flag_at, items_at, members_in};
ghost use Rattle.history_reader.specs.Demands.{IsRelease, IsStage};
ghost use Rattle.gate_spec.specs.Stages.{stage_word};

use crate::member::Member;
use gate_spec::{Stage, stage_named};
use minor_version::{Minor, parse_plain};
use schemas::Array;
use toml::{Table, Value};

fn value_at<'a>(table: &'a Table, name: &str) -> Option<&'a Value>
    ensures { option_map (λ v. view v.now) result ≡ get_member name.now (table_view table.now) }
{
    table.get(name)
}

/// What stands at a member, if anything does.
pub fn value_of<'a>(table: &'a Table, member: Member) -> Option<&'a Value>
    ensures { option_map (λ v. view v.now) result
        ≡ get_member (member_name member) (table_view table.now) }
{
    value_at(table, member.name())
}

/// The text of a member, if it holds one.
pub fn text_member<'a>(table: &'a Table, member: Member) -> Option<&'a str>
    ensures { option_map (λ s. s.now) result ≡ text_at (member_name member) (table_view table.now) }
{
    match value_of(table, member) {
        Some(value) => value.as_str(),
        None => None,
    }
}

/// The boolean of a member, if it holds one.
pub fn flag_member(table: &Table, member: Member) -> Option<bool>
    ensures { result ≡ flag_at (member_name member) (table_view table.now) }
{
    match value_of(table, member) {
        Some(value) => value.as_bool(),
        None => None,
    }
}

/// The items of the array that stands at the array's name, if one does.
pub fn items_of_array(table: &Table, array: Array) -> &[Value]
    ensures { items_view result.now ≡ items_at (array_name array) (table_view table.now) }
{
    match value_at(table, array.name()) {
        Some(value) => match value.as_array() {
            Some(items) => items.as_slice(),
            None => &[],
        },
        None => &[],
    }
}

/// The text of a member that holds one.
pub fn text_of<'a>(table: &'a Table, member: Member) -> &'a str
    requires { IsSome (text_at (member_name member) (table_view table.now)) }
    ensures { text_at (member_name member) (table_view table.now) ≡ Some result.now }
{
    text_member(table, member).unwrap()
}

/// The boolean of a member that holds one.
pub fn flag_of(table: &Table, member: Member) -> bool
    requires { IsSome (flag_at (member_name member) (table_view table.now)) }
    ensures { flag_at (member_name member) (table_view table.now) ≡ Some result }
{
    flag_member(table, member).unwrap()
}

/// The release of a member that holds its text.
pub fn release_of(table: &Table, member: Member) -> Minor
    requires { IsSomeAnd (text_at (member_name member) (table_view table.now)) IsRelease }
    ensures { IsReleaseAt (member_name member) (table_view table.now) result }
{
    parse_plain(text_of(table, member).as_bytes()).unwrap()
}

/// The stage of a member that holds its word.
pub fn stage_of(table: &Table, member: Member) -> Stage
    requires { IsSomeAnd (text_at (member_name member) (table_view table.now)) IsStage }
    ensures { text_at (member_name member) (table_view table.now) ≡ Some (stage_word result) }
{
    stage_named(text_of(table, member).as_bytes()).unwrap()
}

/// The table that a value is.
pub fn table_of(value: &Value) -> &Table
    requires { IsSome (as_table (view value.now)) }
    ensures { table_view result.now ≡ members_in (view value.now) }
{
    value.as_table().unwrap()
}
