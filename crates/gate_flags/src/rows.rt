//! The rows of the gates that a release knows, and what is kept of those that are removed.
ghost use Rattle.std.specs.Prelude.{◌≡◌, IfOk};
ghost use Rattle.gate_flags.specs.Lookups.{all_in, value_in, row_of, removed_of, rows_of, removed_gates_of};

use crate::known::Known;
use crate::values::{GateRow, RemovedGate};
use basis::Memory;
use flag_text::{Name, said_in};
use gate_spec::{SpecAt, Stage};
use std::alloc::Global;
use std::collections::BTreeMap;

fn all_in<'a>(booleans: &BTreeMap<Name<'a>, Option<bool>>, stage: Stage) -> Option<bool>
    ensures { result ≡ all_in booleans.now stage }
{
    match stage {
        Stage::Alpha => said_in(booleans, b"AllAlpha"),
        Stage::Beta => said_in(booleans, b"AllBeta"),
        Stage::Ga => None,
        Stage::Deprecated => None,
    }
}

fn value_in<'a>(
    booleans: &BTreeMap<Name<'a>, Option<bool>>,
    name: &'a [u8],
    stage: Stage,
    default: bool,
) -> bool
    ensures { result ≡ value_in booleans.now name.now stage default }
{
    said_in(booleans, name).unwrap_or(all_in(booleans, stage).unwrap_or(default))
}

fn row<'a>(
    alloc: Global,
    booleans: &BTreeMap<Name<'a>, Option<bool>>,
    gate: &Known<'a>,
) -> Result<Option<GateRow>, Memory>
    ensures { IfOk result (λ r. r ≡ row_of booleans.now gate.now.name.now gate.now.spec) }
{
    match gate.spec {
        SpecAt::Found {
            stage,
            default,
            locked,
        } => Ok(Some(GateRow {
            name: gate.name.duplicate(alloc)?,
            stage,
            default,
            locked,
            value: value_in(booleans, gate.name.bytes(), stage, default),
        })),
        SpecAt::Removed(_) => Ok(None),
        SpecAt::PreAlpha => Ok(None),
        SpecAt::Never => Ok(None),
    }
}

fn removed_gate(alloc: Global, gate: &Known<'_>) -> Result<Option<RemovedGate>, Memory>
    ensures { IfOk result (λ r. r ≡ removed_of gate.now.name.now gate.now.spec) }
{
    match gate.spec {
        SpecAt::Removed(value) => Ok(Some(RemovedGate {
            name: gate.name.duplicate(alloc)?,
            value,
        })),
        SpecAt::Found { .. } => Ok(None),
        SpecAt::PreAlpha => Ok(None),
        SpecAt::Never => Ok(None),
    }
}

/// The rows of the gates that the release knows, by name.
pub fn rows<'a>(
    alloc: Global,
    booleans: &BTreeMap<Name<'a>, Option<bool>>,
    known: &BTreeMap<Name<'a>, Known<'a>>,
) -> Result<Vec<GateRow>, Memory>
    ensures { IfOk result (λ v. v.items ≡ rows_of booleans.now known.now) }
{
    let mut rows = Vec::new(alloc);
    for gate in known.values() {
        let Some(row) = row(alloc, booleans, gate)? else {
            continue;
        };
        rows.push(row)?;
    }
    Ok(rows)
}

/// What is kept of the gates that are removed, by name.
pub fn removed_gates(
    alloc: Global,
    known: &BTreeMap<Name<'_>, Known<'_>>,
) -> Result<Vec<RemovedGate>, Memory>
    ensures { IfOk result (λ v. v.items ≡ removed_gates_of known.now) }
{
    let mut removed = Vec::new(alloc);
    for gate in known.values() {
        let Some(gate) = removed_gate(alloc, gate)? else {
            continue;
        };
        removed.push(gate)?;
    }
    Ok(removed)
}
