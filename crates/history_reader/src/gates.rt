//! The entries of the array `gate`.
ghost use Rattle.toml.specs.View.{table_view};
ghost use Rattle.schemas.specs.Shapes.{IsShapedGate};
ghost use Rattle.history_reader.specs.Rows.{gate_rows};
ghost use Rattle.history_reader.specs.Tests.{MeetsRows};
ghost use Rattle.history_reader.specs.Meaning.{IsGateChange, IsGateEntry};

use crate::entries::Entry;
use crate::member::Member;
use crate::tree::{flag_member, flag_of, release_of, stage_of, text_of, value_of};
use basis::Memory;
use gate_spec::{GateChange, GateEntry};
use minor_version::Text;
use std::alloc::Global;
use toml::Table;

/// What an entry's table tells of the gate.
fn gate_change(table: &Table) -> GateChange
    requires { MeetsRows (gate_rows (table_view table.now)) (table_view table.now) }
    ensures { IsGateChange (table_view table.now) result }
{
    match value_of(table, Member::Removed) {
        Some(_) => GateChange::Gone,
        None => GateChange::Spec {
            stage: stage_of(table, Member::Stage),
            default: flag_of(table, Member::Default),
            locked: flag_member(table, Member::Locked).unwrap_or(false),
        },
    }
}

impl Entry for GateEntry {
    ghost rows = { gate_rows };

    ghost is_entry = { IsGateEntry };

    ghost is_shaped = { IsShapedGate };

    fn from_table(alloc: Global, table: &Table) -> Result<GateEntry, Memory> {
        let name = Text::from_str(alloc, text_of(table, Member::Name))?;
        Ok(GateEntry {
            name,
            since: release_of(table, Member::Since),
            change: gate_change(table),
        })
    }
}
