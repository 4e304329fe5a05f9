ghost use Rattle.std.specs.Prelude.{◌≡◌, ◌≢◌, OnOk, IfOk, IfErr};
ghost use Rattle.gate_spec.specs.Gates.{RisesInDate, cutoff};
ghost use Rattle.flag_text.specs.Pieces.{pieces};
ghost use Rattle.gate_flags.specs.Values.{AreGateValues};
ghost use Rattle.gate_flags.specs.Flags.{IsFeatureText, IsTextFault};

use crate::fault::GateFault;
use crate::known::known_gates;
use crate::passes::{first_fault, first_refusal};
use crate::rows::{removed_gates, rows};
use crate::values::GateValues;
use flag_text::{Vocabulary, last_pieces, pieces};
use gate_spec::GateEntry;
use minor_version::Minor;
use std::alloc::Global;

fn read_values<'a>(
    alloc: Global,
    entries: &'a [GateEntry],
    e: Minor,
    text: &'a [u8],
) -> Result<GateValues, GateFault>
    requires { RisesInDate entries.now }
    ensures accepted { OnOk result (IsFeatureText (cutoff entries.now e) text.now) }
    ensures values { IfOk result (AreGateValues (cutoff entries.now e) (pieces text.now)) }
    ensures fault { IfErr result (IsTextFault entries.now e text.now) }
{
    let pieces = pieces(alloc, text)?;
    if let Some(fault) = first_fault(&pieces) {
        return Err(fault);
    }
    let last = last_pieces(alloc, Vocabulary::Go, pieces)?;
    let known = known_gates(alloc, entries, e)?;
    if let Some(fault) = first_refusal(&known, &last.pieces) {
        return Err(fault);
    }
    let rows = rows(alloc, &last.booleans, &known)?;
    let removed = removed_gates(alloc, &known)?;
    Ok(GateValues::new(rows, removed))
}

/// The values of the gates at the release e, by a history whose entries of one gate rise in date, where the text sets
/// some of them. The text is refused exactly where the release e would refuse it, for the first fault of the two
/// passes.
pub fn gate_values(
    alloc: Global,
    entries: &[GateEntry],
    e: Minor,
    text: &[u8],
) -> Result<GateValues, GateFault>
    requires { RisesInDate entries.now }
    ensures accepted { OnOk result (IsFeatureText (cutoff entries.now e) text.now) }
    ensures values { IfOk result (AreGateValues (cutoff entries.now e) (pieces text.now)) }

    // Only want of memory refuses a valid text.
    ensures fault { IfErr result (IsTextFault entries.now e text.now) }
    ensures refused { IfErr result
        (λ fault. fault ≢ GateFault.Memory → ¬ IsFeatureText (cutoff entries.now e) text.now) }
{
    read_values(alloc, entries, e, text)
}
