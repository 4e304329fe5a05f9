//! Rows and tables from words.
use crate::values::{form_named, texts_of, type_named, value_of};
use basis::Memory;
use fields::{FieldRow, FieldRows, FieldValue, Path, VersionTable, are_apart, is_field_path};
use minor_version::Text;
use std::alloc::Global;

// A row of a word each: its id, type, path and form, whether its gate is on, and its default, if it has one.
const OLD: &str = "color Text spec.color Same on; \
count Int spec.count Decimal on; \
paused Bool spec.active Not on; \
size Int spec.size Same on; \
tags TextList tags Same on";

const NEW: &str = "color Text spec.color Same on Text grey; \
paused Bool spec.paused Same on; \
size Int spec.dimensions.size Same on";

// As the new ones, with the gate of the color off.
const OFF: &str = "color Text spec.color Same off Text grey; \
paused Bool spec.paused Same on; \
size Int spec.dimensions.size Same on";

fn path_of(alloc: Global, text: &str) -> Result<Path, Memory> {
    texts_of(alloc, text, '.')
}

/// Whether a field may have the path.
pub(crate) fn is_path_of_field(alloc: Global, text: &str) -> Result<bool, Memory> {
    match path_of(alloc, text) {
        Ok(path) => Ok(is_field_path(path.items())),
        Err(memory) => Err(memory),
    }
}

fn is_apart(alloc: Global, path: &[Text], other: &str) -> Result<bool, Memory> {
    match path_of(alloc, other) {
        Ok(other) => Ok(are_apart(path, other.items())),
        Err(memory) => Err(memory),
    }
}

/// Whether neither of two paths leads through the other.
pub(crate) fn are_apart_paths(alloc: Global, pair: &str) -> Result<bool, Memory> {
    let (one, other) = pair.split_once(' ').unwrap_or((pair, ""));
    match path_of(alloc, one) {
        Ok(path) => is_apart(alloc, path.items(), other),
        Err(memory) => Err(memory),
    }
}

fn word_of(line: &str, index: usize) -> &str {
    line.splitn(6, ' ').nth(index).unwrap_or("")
}

fn default_of(alloc: Global, word: &str) -> Result<Option<FieldValue>, Memory> {
    if word.is_empty() {
        return Ok(None);
    }
    match value_of(alloc, word) {
        Ok(value) => Ok(Some(value)),
        Err(memory) => Err(memory),
    }
}

// The row of a line, with this id and no path and no default.
fn bare_row(id: Text, line: &str) -> FieldRow {
    FieldRow {
        id,
        ty: type_named(word_of(line, 1)),
        required: false,
        on: word_of(line, 4) == "on",
        path: Path::new(),
        form: form_named(word_of(line, 3)),
        default: None,
    }
}

fn fill_path(alloc: Global, row: &mut FieldRow, line: &str) -> Result<(), Memory> {
    match path_of(alloc, word_of(line, 2)) {
        Ok(path) => {
            row.path = path;
            Ok(())
        }
        Err(memory) => Err(memory),
    }
}

fn fill_default(alloc: Global, row: &mut FieldRow, line: &str) -> Result<(), Memory> {
    match default_of(alloc, word_of(line, 5)) {
        Ok(default) => {
            row.default = default;
            Ok(())
        }
        Err(memory) => Err(memory),
    }
}

fn fill(alloc: Global, row: &mut FieldRow, line: &str) -> Result<(), Memory> {
    match fill_path(alloc, row, line) {
        Ok(()) => fill_default(alloc, row, line),
        Err(memory) => Err(memory),
    }
}

// Appends the row where its id is above the last one's. Whether it is.
fn is_appended(alloc: Global, rows: &mut FieldRows, row: FieldRow) -> Result<bool, Memory> {
    if !rows.can_push(row.id.bytes()) {
        return Ok(false);
    }
    match rows.push(alloc, row) {
        Ok(()) => Ok(true),
        Err(memory) => Err(memory),
    }
}

fn is_filled_and_appended(
    alloc: Global,
    rows: &mut FieldRows,
    mut row: FieldRow,
    line: &str,
) -> Result<bool, Memory> {
    match fill(alloc, &mut row, line) {
        Ok(()) => is_appended(alloc, rows, row),
        Err(memory) => Err(memory),
    }
}

fn is_line_appended(alloc: Global, rows: &mut FieldRows, line: &str) -> Result<bool, Memory> {
    match Text::from_str(alloc, word_of(line, 0)) {
        Ok(id) => is_filled_and_appended(alloc, rows, bare_row(id, line), line),
        Err(memory) => Err(memory),
    }
}

// Appends the rows that stand in order. Whether all do.
fn are_appended(alloc: Global, rows: &mut FieldRows, lines: &str) -> Result<bool, Memory> {
    let mut all = true;
    for line in lines.split("; ") {
        match is_line_appended(alloc, rows, line) {
            Ok(is_in_order) => all = all && is_in_order,
            Err(memory) => return Err(memory),
        }
    }
    Ok(all)
}

/// Whether the rows stand in order.
pub(crate) fn keeps_order(alloc: Global, lines: &str) -> Result<bool, Memory> {
    are_appended(alloc, &mut FieldRows::new(), lines)
}

fn rows_of(alloc: Global, lines: &str) -> Result<FieldRows, Memory> {
    let mut rows = FieldRows::new();
    match are_appended(alloc, &mut rows, lines) {
        Ok(_) => Ok(rows),
        Err(memory) => Err(memory),
    }
}

fn names(alloc: Global, one: &str, other: &str) -> Result<(Text, Text), Memory> {
    let one = Text::from_str(alloc, one)?;
    let other = Text::from_str(alloc, other)?;
    Ok((one, other))
}

// A table of widgets with no rows.
fn bare_table(alloc: Global, version: &str) -> Result<VersionTable, Memory> {
    let (group, version) = names(alloc, "demo.example", version)?;
    let (resource, kind) = names(alloc, "widgets", "Widget")?;
    Ok(VersionTable {
        group,
        version,
        resource,
        kind,
        rows: FieldRows::new(),
    })
}

fn table_with(alloc: Global, version: &str, rows: FieldRows) -> Result<VersionTable, Memory> {
    match bare_table(alloc, version) {
        Ok(mut table) => {
            table.rows = rows;
            Ok(table)
        }
        Err(memory) => Err(memory),
    }
}

fn lines_named(name: &str) -> &str {
    match name {
        "old" => OLD,
        "new" => NEW,
        "off" => OFF,
        _ => name,
    }
}

/// The table of a name, or that of these rows.
pub(crate) fn table_of(alloc: Global, name: &str) -> Result<VersionTable, Memory> {
    let version = if name == "old" { "v1beta1" } else { "v1" };
    match rows_of(alloc, lines_named(name)) {
        Ok(rows) => table_with(alloc, version, rows),
        Err(memory) => Err(memory),
    }
}

/// Whether the rows are those of a lawful table.
pub(crate) fn is_lawful_table(alloc: Global, lines: &str) -> Result<bool, Memory> {
    match rows_of(alloc, lines) {
        Ok(rows) => Ok(rows.are_lawful()),
        Err(memory) => Err(memory),
    }
}
