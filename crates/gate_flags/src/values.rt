ghost use Rattle.std.specs.Prelude.{◌≡◌, ◌↔◌, Bool, Some, Any, map};
ghost use Rattle.std.specs.Ordering.{nat_cmp};
ghost use Rattle.std.specs.Cmp.Lexicographic.{slice_cmp};
ghost use Rattle.std.specs.List.Sorted.{IsStrictlySortedBy};
ghost use Rattle.gate_flags.specs.Values.{AreInOrder, HasValue};

use gate_spec::Stage;
use minor_version::Text;
use std::cmp::Ordering;
use std::marker::Model;

/// A gate that the release knows, with the value that it has.
#[derive(Debug, Drop)]
pub struct GateRow {
    pub name: Text,
    pub stage: Stage,
    pub default: bool,
    pub locked: bool,
    pub value: bool,
}

/// A gate that was removed, with the value that it keeps.
#[derive(Debug, Drop)]
pub struct RemovedGate {
    pub name: Text,
    pub value: bool,
}

/// The values of the gates at a release.
#[derive(Debug, Drop)]
pub struct GateValues {
    rows: Vec<GateRow>,
    removed: Vec<RemovedGate>,
}

impl Model for GateValues {
    ghost use Rattle.gate_flags.specs.Values.{Gates, AreInOrder};

    ghost Value = { Gates };

    ghost view = { λ v. record { rows = v.rows.items; removed = v.removed.items } };

    ghost invariant = { λ v.
        AreInOrder (record { rows = v.rows.items; removed = v.removed.items }) };
}

impl GateValues {
    // Both lists are in order of their names, and share none.
    pub(crate) fn new(rows: Vec<GateRow>, removed: Vec<RemovedGate>) -> GateValues
        requires { AreInOrder (record { rows = rows.items; removed = removed.items }) }
        ensures rows { result.rows ≡ rows.items }
        ensures removed { result.removed ≡ removed.items }
    {
        GateValues { rows, removed }
    }

    /// The value of the gate with this name: where the release knows the gate or removed it, the one that it has.
    pub fn value(&self, name: &[u8]) -> Option<bool>
        ensures { (v : Bool) → (result ≡ Some v) ↔ HasValue self.now name.now v }
    {
        match value_of_row(&self.rows, name) {
            Some(value) => Some(value),
            None => value_of_removed(&self.removed, name),
        }
    }

    /// The gates that the release knows, in byte order of their names.
    pub fn rows(&self) -> &[GateRow]
        ensures { result.now ≡ self.now.rows }
    {
        self.rows.as_slice()
    }
}

fn compared(name: &Text, bytes: &[u8]) -> Ordering
    ensures { result ≡ slice_cmp nat_cmp name.now bytes.now }
{
    name.bytes().cmp(&bytes)
}

// The value of the row with this name, in rows that rise by name.
fn value_of_row(rows: &[GateRow], name: &[u8]) -> Option<bool>
    requires { IsStrictlySortedBy (slice_cmp nat_cmp) (map (λ r. r.name) rows.now) }
    ensures { (v : Bool) → (result ≡ Some v)
        ↔ Any (λ r. (r.name ≡ name.now) × (r.value ≡ v)) rows.now }
{
    match rows.binary_search_by(|row| compared(&row.name, name)) {
        Ok(at) => Some(rows[at].value),
        Err(_) => None,
    }
}

// The value that is kept of the gate with this name, in gates that rise by name.
fn value_of_removed(gates: &[RemovedGate], name: &[u8]) -> Option<bool>
    requires { IsStrictlySortedBy (slice_cmp nat_cmp) (map (λ r. r.name) gates.now) }
    ensures { (v : Bool) → (result ≡ Some v)
        ↔ Any (λ r. (r.name ≡ name.now) × (r.value ≡ v)) gates.now }
{
    match gates.binary_search_by(|gate| compared(&gate.name, name)) {
        Ok(at) => Some(gates[at].value),
        Err(_) => None,
    }
}
