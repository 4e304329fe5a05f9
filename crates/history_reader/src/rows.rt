//! The member table: the rows of each table of a history document, in the order of their tests.
ghost use Rattle.std.specs.Prelude.{◌≡◌};
ghost use Rattle.toml.specs.View.{table_view};
ghost use Rattle.history_reader.specs.Rows.{top_rows, gate_rows, api_rows, field_rows, spell_rows, rows_of};
ghost use Rattle.history_reader.specs.TableRows.{rows_in};

use crate::demand::Demand::{self, Optional, Required};
use crate::demand::Shape::{self, Text};
use crate::demand::TextShape::{
    EventWord, FieldId, FormWord, GateName, GroupName, KindName, PathText, Release, ResourceName,
    StageWord, TypeWord, VersionWord,
};
use crate::member::Member;
use crate::tree::{text_member, value_of};
use schemas::Array;
use toml::Table;

/// A member, and what must stand there.
pub type Row = (Member, Demand);

/// The arrays whose entries are read, in the order of their tests.
pub const ENTRY_ARRAYS: [Array; 4] = [Array::Gate, Array::Api, Array::Field, Array::Spell];

/// The rows of a table: those that each table of its array has, then those that it has by what it tells.
#[derive(Clone, Copy, Debug)]
pub struct TableRows {
    pub common: &'static [Row],
    pub own: &'static [Row],
}

fn document_rows() -> TableRows
    ensures { rows_in result ≡ top_rows }
{
    TableRows {
        common: &[
            (Member::First, Optional(Text(Release))),
            (Member::Last, Optional(Text(Release))),
            (Member::Gate, Optional(Shape::Tables)),
            (Member::Api, Optional(Shape::Tables)),
            (Member::Field, Optional(Shape::Tables)),
            (Member::Spell, Optional(Shape::Tables)),
        ],
        own: &[],
    }
}

fn rows_of_gate(table: &Table) -> TableRows
    ensures { rows_in result ≡ gate_rows (table_view table.now) }
{
    TableRows {
        common: &[
            (Member::Name, Required(Text(GateName))),
            (Member::Since, Required(Text(Release))),
        ],
        own: match value_of(table, Member::Removed) {
            Some(_) => &[(Member::Removed, Required(Shape::OnlyTrue))],
            None => &[
                (Member::Stage, Required(Text(StageWord))),
                (Member::Default, Required(Shape::Flag)),
                (Member::Locked, Optional(Shape::Flag)),
            ],
        },
    }
}

fn rows_of_api(table: &Table) -> TableRows
    ensures { rows_in result ≡ api_rows (table_view table.now) }
{
    TableRows {
        common: &[
            (Member::Group, Required(Text(GroupName))),
            (Member::Version, Required(Text(VersionWord))),
            (Member::Resource, Required(Text(ResourceName))),
            (Member::Since, Required(Text(Release))),
            (Member::Event, Required(Text(EventWord))),
        ],
        own: match text_member(table, Member::Event) {
            Some("introduced") => &[
                (Member::Kind, Required(Text(KindName))),
                (Member::Singular, Required(Text(ResourceName))),
                (Member::Namespaced, Required(Shape::Flag)),
                (Member::Enabled, Required(Shape::Flag)),
            ],
            Some("deprecated") => &[
                (Member::Removal, Required(Text(Release))),
                (Member::Replacement, Required(Text(VersionWord))),
            ],
            _ => &[],
        },
    }
}

fn rows_of_field() -> TableRows
    ensures { rows_in result ≡ field_rows }
{
    TableRows {
        common: &[
            (Member::Group, Required(Text(GroupName))),
            (Member::Resource, Required(Text(ResourceName))),
            (Member::Id, Required(Text(FieldId))),
            (Member::Since, Required(Text(Release))),
            (Member::FieldType, Required(Text(TypeWord))),
            (Member::Required, Optional(Shape::Flag)),
            (Member::Gate, Optional(Text(GateName))),
        ],
        own: &[],
    }
}

fn rows_of_spell() -> TableRows
    ensures { rows_in result ≡ spell_rows }
{
    TableRows {
        common: &[
            (Member::Group, Required(Text(GroupName))),
            (Member::Resource, Required(Text(ResourceName))),
            (Member::Version, Required(Text(VersionWord))),
            (Member::Field, Required(Text(FieldId))),
            (Member::Since, Required(Text(Release))),
            (Member::Path, Required(Text(PathText))),
            (Member::Form, Optional(Text(FormWord))),
            (Member::Default, Optional(Shape::Scalar)),
        ],
        own: &[],
    }
}

/// The rows of a table of the array, or of the document itself.
pub fn rows_of_table(array: Array, table: &Table) -> TableRows
    ensures { rows_in result ≡ rows_of array (table_view table.now) }
{
    match array {
        Array::Top => document_rows(),
        Array::Gate => rows_of_gate(table),
        Array::Api => rows_of_api(table),
        Array::Field => rows_of_field(),
        Array::Spell => rows_of_spell(),
    }
}
