ghost use Rattle.std.specs.Prelude.{◌≡◌, ◌≤◌, ℕ};
ghost use Rattle.gate_spec.specs.Gates.{RisesInDate, cutoff};
ghost use Rattle.gate_spec.specs.Laws.{IsKnownAlike, HasOneSpec};

use crate::entry::GateEntry;
use minor_version::Minor;

/// The law of emulation for a gate: where a history is cut at the release o, each release e up to o has the same tables,
/// so that it knows of the gate what it knows by the whole history. Only a gate that comes with an entry that the cut
/// drops is one that never comes. Nothing is computed here; the law is the contract.
pub fn emulation_of_specs(entries: &[GateEntry], cut: &[GateEntry], name: &[u8], o: Minor)
    requires { cut.now ≡ cutoff entries.now o }
    ensures tables { (e : ℕ) → e ≤ o → cutoff cut.now e ≡ cutoff entries.now e }
    ensures rises { RisesInDate entries.now → RisesInDate cut.now }
    ensures known { (e : ℕ) → e ≤ o → IsKnownAlike entries.now cut.now name.now e }
{}

/// Where the entries of one gate rise in date, a release knows exactly one thing of it. Nothing is computed here; the law
/// is the contract.
pub fn gate_has_one_spec(entries: &[GateEntry], name: &[u8], e: Minor)
    requires { RisesInDate entries.now }
    ensures { HasOneSpec entries.now name.now e }
{}
