//! Texts of a view, which are UTF-8. Nothing is computed here; each function is a law.
ghost use Rattle.std.specs.Prelude.{◌≡◌, Some, IfSome, option_copied};
ghost use Rattle.fields.specs.declared.table.VersionTable.{VersionTable as TableS};
ghost use Rattle.lifecycle.specs.Entry.{named};
ghost use Rattle.release_view.specs.Known.{table_name};
ghost use Rattle.release_view.specs.Served.{shown_name};
ghost use Rattle.release_view.specs.Views.{table_in};
ghost use Rattle.storage_version.specs.Storage.{storage_table_in};
ghost use Rattle.served_steps.specs.Texts.{IsTextDefault, HaveTextDefaults, IsTextTable, HasTexts, ServedHaveTexts};

use fields::{FieldRow, FieldValue, VersionTable};
use lifecycle::ApiName;
use minor_version::text_is_utf8;
use release_view::{ServedVersion, View};

fn default_is_text(value: &FieldValue)
    ensures { IsTextDefault value.now }
{
    match value {
        FieldValue::Bool(_) => {}
        FieldValue::Int(_) => {}
        FieldValue::Text(text) => text_is_utf8(text),
        FieldValue::List(_) => {}
    }
}

fn row_has_text(row: &FieldRow)
    ensures { IfSome row.now.default IsTextDefault }
{
    match &row.default {
        Some(value) => default_is_text(value),
        None => {}
    }
}

fn defaults_are_texts(rows: &[FieldRow])
    ensures { HaveTextDefaults rows.now }
{
    for row in rows {
        row_has_text(row);
    }
}

fn table_is_text(table: &VersionTable)
    ensures { IsTextTable table.now }
{
    text_is_utf8(&table.group);
    text_is_utf8(&table.version);
    text_is_utf8(&table.kind);
}

fn name_of(table: &VersionTable) -> ApiName<'_>
    ensures { named result ≡ table_name table.now }
{
    ApiName {
        group: table.group.bytes(),
        version: table.version.bytes(),
        resource: table.resource.bytes(),
    }
}

fn served_name(served: &ServedVersion) -> ApiName<'_>
    ensures { named result ≡ shown_name served.now }
{
    ApiName {
        group: served.group.bytes(),
        version: served.version.bytes(),
        resource: served.resource.bytes(),
    }
}

fn storage_table<'a>(
    back: &'a View,
    view: &'a View,
    group: &[u8],
    resource: &[u8],
) -> Option<&'a VersionTable>
    ensures { option_copied result
        ≡ storage_table_in back.now.versions view.now.versions group.now resource.now }
{
    match back.live_best(group, resource) {
        Some(best) => view.table(name_of(best)),
        None => match view.live_best(group, resource) {
            Some(best) => view.table(name_of(best)),
            None => None,
        },
    }
}

fn own_defaults(view: &View, served: &ServedVersion)
    ensures { (table : TableS) → table_in view.now.versions (shown_name served.now) ≡ Some table
        → HaveTextDefaults table.rows }
{
    match view.table(served_name(served)) {
        Some(table) => defaults_are_texts(table.rows.items()),
        None => {}
    }
}

fn own_storage(back: &View, view: &View, served: &ServedVersion)
    ensures { (table : TableS) → storage_table_in back.now.versions view.now.versions
        served.now.group served.now.resource ≡ Some table → IsTextTable table }
{
    match storage_table(back, view, served.group.bytes(), served.resource.bytes()) {
        Some(table) => table_is_text(table),
        None => {}
    }
}

fn version_has_texts(back: &View, view: &View, served: &ServedVersion)
    ensures { HasTexts back.now.versions view.now.versions served.now }
{
    own_defaults(view, served);
    own_storage(back, view, served);
}

/// The texts of the defaults of each served version, and of the version in which its objects are stored, are UTF-8.
pub(crate) fn served_have_texts(back: &View, view: &View)
    ensures { ServedHaveTexts back.now.versions view.now.versions }
{
    for served in view.served() {
        version_has_texts(back, view, served);
    }
}
