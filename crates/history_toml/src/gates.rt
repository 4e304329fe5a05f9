//! The tables of gates.
ghost use Rattle.std.specs.Prelude.{◌≡◌, ◌++◌, OnOk};
ghost use Rattle.history_toml.specs.Rows.{row_pairs};
ghost use Rattle.history_toml.specs.Tables.{gate_pairs, gate_change_pairs};

use crate::entry::Entry;
use crate::members::{Row, put_boolean, put_flag, put_release, put_text};
use crate::words::stage_word;
use basis::Memory;
use gate_spec::{GateChange, GateEntry};
use std::alloc::Global;

/// Adds what happens to the gate.
fn put_change(alloc: Global, row: &mut Row, change: GateChange) -> Result<(), Memory>
    ensures { OnOk result (row_pairs row.new ≡ row_pairs row.old ++ gate_change_pairs change) }
{
    match change {
        GateChange::Spec {
            stage,
            default,
            locked,
        } => {
            put_text(alloc, row, "stage", stage_word(stage))?;
            put_boolean(row, "default", default)?;
            put_flag(row, "locked", locked)
        }
        GateChange::Gone => put_boolean(row, "removed", true),
    }
}

impl Entry for GateEntry {
    ghost pairs = { gate_pairs };

    fn to_row(&self, alloc: Global) -> Result<Row, Memory> {
        let mut row = Row::new(alloc);
        put_text(alloc, &mut row, "name", self.name.as_str())?;
        put_release(alloc, &mut row, "since", self.since)?;
        put_change(alloc, &mut row, self.change)?;
        Ok(row)
    }
}
