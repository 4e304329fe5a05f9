//! The rows of the versions of widgets, where a text sets gates.
use crate::views::widgets;
use basis::Memory;
use fields::{FieldRow, FieldValue};
use gate_flags::gate_values;
use minor_version::Minor;
use row_index::RowIndex;
use schemas::{Accepted, gates_rise_in_date};
use std::alloc::Global;

fn path_text(alloc: Global, row: &FieldRow) -> Result<String, Memory> {
    let mut text = String::new(alloc);
    for name in row.path.items() {
        if !text.is_empty() {
            text.push_str(".")?;
        }
        text.push_str(name.as_str())?;
    }
    Ok(text)
}

/// What the row says, in the order of its members.
fn row_text(alloc: Global, row: &FieldRow) -> Result<String, Memory> {
    let path = path_text(alloc, row)?;
    let id = row.id.as_str();
    let default = match &row.default {
        Some(FieldValue::Text(text)) => text.as_str(),
        Some(_) => "other",
        None => "-",
    };
    Ok(format!(in alloc;
        "{id} {:?} {} {} {path} {:?} {default};",
        row.ty, row.required, row.on, row.form
    )?)
}

/// A version and a text that sets gates: the rows of the version.
pub fn answer(
    alloc: Global,
    accepted: &Accepted,
    e: Minor,
    question: &str,
) -> Result<String, Memory> {
    let (version, gates) = question.split_once(' ').unwrap_or((question, ""));
    let history = accepted.history();
    gates_rise_in_date(history);
    let Ok(values) = gate_values(alloc, history.gates.items(), e, gates.as_bytes()) else {
        return Ok(String::from_str(alloc, "refused")?);
    };
    let index = RowIndex::at(alloc, accepted, e, &values)?;
    let mut text = String::new(alloc);
    for row in index.rows(alloc, widgets(version))?.items() {
        text.push_str(row_text(alloc, row)?.as_str())?;
    }
    Ok(text)
}
