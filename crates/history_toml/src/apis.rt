//! The tables of versions of resources.
ghost use Rattle.std.specs.Prelude.{◌≡◌, ◌++◌, OnOk};
ghost use Rattle.history_toml.specs.Rows.{row_pairs};
ghost use Rattle.history_toml.specs.Tables.{api_pairs, api_change_pairs, introduction_pairs};

use crate::entry::Entry;
use crate::members::{Row, put_boolean, put_release, put_text};
use basis::Memory;
use lifecycle::{ApiChange, ApiEntry};
use minor_version::Text;
use std::alloc::Global;

/// Adds that the version appears, and what it is called.
fn put_introduction(
    alloc: Global,
    row: &mut Row,
    kind: &Text,
    singular: &Text,
) -> Result<(), Memory>
    ensures { OnOk result
        (row_pairs row.new ≡ row_pairs row.old ++ introduction_pairs kind.now singular.now) }
{
    put_text(alloc, row, "event", "introduced")?;
    put_text(alloc, row, "kind", kind.as_str())?;
    put_text(alloc, row, "singular", singular.as_str())?;
    Ok(())
}

/// Adds what happens to the version.
fn put_change(alloc: Global, row: &mut Row, change: &ApiChange) -> Result<(), Memory>
    ensures { OnOk result (row_pairs row.new ≡ row_pairs row.old ++ api_change_pairs change.now) }
{
    match change {
        ApiChange::Introduced {
            kind,
            singular,
            namespaced,
            enabled,
        } => {
            put_introduction(alloc, row, kind, singular)?;
            put_boolean(row, "namespaced", *namespaced)?;
            put_boolean(row, "enabled", *enabled)?;
            Ok(())
        }
        ApiChange::Deprecated {
            removal,
            replacement,
        } => {
            put_text(alloc, row, "event", "deprecated")?;
            put_release(alloc, row, "removal", *removal)?;
            put_text(alloc, row, "replacement", replacement.as_str())
        }
        ApiChange::Removed => put_text(alloc, row, "event", "removed"),
        ApiChange::Forgotten => put_text(alloc, row, "event", "forgotten"),
    }
}

impl Entry for ApiEntry {
    ghost pairs = { api_pairs };

    fn to_row(&self, alloc: Global) -> Result<Row, Memory> {
        let mut row = Row::new(alloc);
        put_text(alloc, &mut row, "group", self.group.as_str())?;
        put_text(alloc, &mut row, "version", self.version.as_str())?;
        put_text(alloc, &mut row, "resource", self.resource.as_str())?;
        put_release(alloc, &mut row, "since", self.since)?;
        put_change(alloc, &mut row, &self.change)?;
        Ok(row)
    }
}
