//! The entries of the array `api`.
ghost use Rattle.std.specs.Prelude.{◌≡◌, Some, IfOk, codes};
ghost use Rattle.toml.specs.View.{table_view};
ghost use Rattle.schemas.specs.Shapes.{IsShapedApi, IsShapedChange};
ghost use Rattle.history_reader.specs.Tree.{text_at};
ghost use Rattle.history_reader.specs.Rows.{api_rows};
ghost use Rattle.history_reader.specs.Tests.{MeetsRows};
ghost use Rattle.history_reader.specs.Meaning.{IsApiChange, IsApiEntry};

use crate::entries::Entry;
use crate::member::Member;
use crate::tree::{flag_of, release_of, text_of};
use basis::Memory;
use lifecycle::{ApiChange, ApiEntry};
use minor_version::Text;
use std::alloc::Global;
use toml::Table;

fn introduction(alloc: Global, table: &Table) -> Result<ApiChange, Memory>
    requires rows { MeetsRows (api_rows (table_view table.now)) (table_view table.now) }
    requires event { text_at (codes "event") (table_view table.now) ≡ Some (codes "introduced") }
    ensures ok { IfOk result (IsApiChange (table_view table.now)) }
    ensures shaped { IfOk result IsShapedChange }
{
    Ok(ApiChange::Introduced {
        kind: Text::from_str(alloc, text_of(table, Member::Kind))?,
        singular: Text::from_str(alloc, text_of(table, Member::Singular))?,
        namespaced: flag_of(table, Member::Namespaced),
        enabled: flag_of(table, Member::Enabled),
    })
}

fn deprecation(alloc: Global, table: &Table) -> Result<ApiChange, Memory>
    requires rows { MeetsRows (api_rows (table_view table.now)) (table_view table.now) }
    requires event { text_at (codes "event") (table_view table.now) ≡ Some (codes "deprecated") }
    ensures ok { IfOk result (IsApiChange (table_view table.now)) }
    ensures shaped { IfOk result IsShapedChange }
{
    Ok(ApiChange::Deprecated {
        removal: release_of(table, Member::Removal),
        replacement: Text::from_str(alloc, text_of(table, Member::Replacement))?,
    })
}

/// What an entry's table tells of the version.
fn api_change(alloc: Global, table: &Table) -> Result<ApiChange, Memory>
    requires { MeetsRows (api_rows (table_view table.now)) (table_view table.now) }
    ensures ok { IfOk result (IsApiChange (table_view table.now)) }
    ensures shaped { IfOk result IsShapedChange }
{
    match text_of(table, Member::Event) {
        "introduced" => introduction(alloc, table),
        "deprecated" => deprecation(alloc, table),
        "removed" => Ok(ApiChange::Removed),
        _ => Ok(ApiChange::Forgotten),
    }
}

impl Entry for ApiEntry {
    ghost rows = { api_rows };

    ghost is_entry = { IsApiEntry };

    ghost is_shaped = { IsShapedApi };

    fn from_table(alloc: Global, table: &Table) -> Result<ApiEntry, Memory> {
        let group = Text::from_str(alloc, text_of(table, Member::Group))?;
        let version = Text::from_str(alloc, text_of(table, Member::Version))?;
        let resource = Text::from_str(alloc, text_of(table, Member::Resource))?;
        let since = release_of(table, Member::Since);
        let change = api_change(alloc, table)?;
        Ok(ApiEntry {
            group,
            version,
            resource,
            since,
            change,
        })
    }
}
