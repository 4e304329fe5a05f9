//! The view of a release under a runtime configuration, with its gates as they are by default.
ghost use Rattle.std.specs.Prelude.{◌≡◌, ◌≢◌, ◌≤◌, [], OnOk, IfOk, IfErr};
ghost use Rattle.flag_text.specs.Pieces.{pieces};
ghost use Rattle.gate_flags.specs.Flags.{IsFeatureText};
ghost use Rattle.gate_flags.specs.Values.{AreGateValues};
ghost use Rattle.gate_spec.specs.Gates.{RisesInDate, cutoff as gate_cutoff};
ghost use Rattle.lifecycle.specs.Tables.{cutoff};
ghost use Rattle.release_view.specs.Views.{IsDefaultView, IsViewByTexts};
ghost use Rattle.runtime_config.specs.Config.{IsRuntimeText, IsTextFault};
ghost use Rattle.schemas.specs.Rules.{first_of, last_of};

use crate::build::view_at;
use crate::law::texts_make_view;
use crate::release::View;
use basis::Memory;
use gate_flags::{GateFault, GateValues, gate_values};
use gate_spec::GateEntry;
use minor_version::Minor;
use runtime_config::{ConfigFault, enabled_at};
use schemas::Accepted;
use std::alloc::Global;

/// The values of the gates where no text sets any.
fn default_gates(alloc: Global, entries: &[GateEntry], e: Minor) -> Result<GateValues, Memory>
    requires { RisesInDate entries.now }
    ensures valid { IsFeatureText (gate_cutoff entries.now e) [] }
    ensures values { IfOk result (AreGateValues (gate_cutoff entries.now e) (pieces [])) }
{
    match gate_values(alloc, entries, e, b"") {
        Ok(gates) => Ok(gates),
        Err(GateFault::Memory) => Err(Memory),
        Err(GateFault::At { .. }) => unreachable!(),
    }
}

/// The view of the release e with its gates as they are by default, and the versions that it serves under this runtime
/// configuration: that which the empty feature gate text and this one make. The configuration is refused exactly where
/// the release refuses it.
pub fn view_by_config(
    alloc: Global,
    a: &Accepted,
    e: Minor,
    config: &[u8],
) -> Result<View, ConfigFault>
    requires from { first_of a.now ≤ e }
    requires to { e ≤ last_of a.now }
    ensures accepted { OnOk result (IsRuntimeText (cutoff a.now.apis e) config.now) }
    ensures view { IfOk result (IsViewByTexts a.now e [] config.now) }

    // Only want of memory refuses a valid text.
    ensures fault { IfErr result (IsTextFault a.now.apis e config.now) }
    ensures refused { IfErr result (λ fault. fault ≢ ConfigFault.Memory →
        ¬ IsRuntimeText (cutoff a.now.apis e) config.now) }
{
    let history = a.history();
    let gates = default_gates(alloc, history.gates.items(), e)?;
    let on = enabled_at(alloc, history.apis.items(), e, config)?;
    texts_make_view(a, e, b"", &gates, config, &on);
    let view = view_at(alloc, a, e, gates, on)?;
    Ok(view)
}

/// The view of the release e with its gates as they are by default, and the versions that their introductions enable:
/// that which empty texts make.
pub fn default_view(alloc: Global, a: &Accepted, e: Minor) -> Result<View, Memory>
    requires from { first_of a.now ≤ e }
    requires to { e ≤ last_of a.now }
    ensures { IfOk result (IsDefaultView a.now e) }
{
    match view_by_config(alloc, a, e, b"") {
        Ok(view) => Ok(view),
        Err(ConfigFault::Memory) => Err(Memory),
        Err(_) => unreachable!(),
    }
}
