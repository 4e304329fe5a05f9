//! The view that flag texts make.
ghost use Rattle.std.specs.Prelude.{◌≡◌, ◌≢◌, ◌≤◌, OnOk, IfOk, IfErr};
ghost use Rattle.flag_text.specs.Pieces.{pieces};
ghost use Rattle.gate_flags.specs.Flags.{IsFeatureText};
ghost use Rattle.gate_flags.specs.Values.{AreGateValues};
ghost use Rattle.gate_spec.specs.Gates.{cutoff as gate_cutoff};
ghost use Rattle.lifecycle.specs.Tables.{cutoff};
ghost use Rattle.release_view.specs.Views.{IsViewByTexts};
ghost use Rattle.runtime_config.specs.Config.{AreServed, IsRuntimeText};
ghost use Rattle.schemas.specs.Rules.{first_of, last_of};
ghost use Rattle.flagged_view.specs.Flags.{IsFlagsFault, IsRefusedText};

use crate::fault::FlagsFault;
use gate_flags::{GateFault, GateValues, gate_values};
use minor_version::Minor;
use release_view::{View, texts_make_view, view_at};
use runtime_config::{ConfigFault, Enabled, enabled_at};
use schemas::Accepted;
use std::alloc::Global;

// The view, which takes memory behind both texts.
fn made(
    alloc: Global,
    a: &Accepted,
    e: Minor,
    features: &[u8],
    gates: GateValues,
    config: &[u8],
    on: Enabled,
) -> Result<View, FlagsFault>
    requires from { first_of a.now ≤ e }
    requires to { e ≤ last_of a.now }
    requires features { IsFeatureText (gate_cutoff a.now.gates e) features.now }
    requires gates { AreGateValues (gate_cutoff a.now.gates e) (pieces features.now) gates }
    requires on { AreServed (cutoff a.now.apis e) (pieces config.now) on }
    ensures view { IfOk result (IsViewByTexts a.now e features.now config.now) }
    ensures err { IfErr result (λ fault. fault ≡ FlagsFault.Runtime ConfigFault.Memory) }
{
    texts_make_view(a, e, features, &gates, config, &on);
    match view_at(alloc, a, e, gates, on) {
        Ok(view) => Ok(view),
        Err(_) => Err(FlagsFault::Runtime(ConfigFault::Memory)),
    }
}

/// The view of the release e with the values of its gates, and the versions that it serves, that these texts make. A text is
/// refused exactly where the release refuses it, the feature gate text first.
pub fn view_by_texts(
    alloc: Global,
    a: &Accepted,
    e: Minor,
    features: &[u8],
    config: &[u8],
) -> Result<View, FlagsFault>
    requires from { first_of a.now ≤ e }
    requires to { e ≤ last_of a.now }
    ensures features { OnOk result (IsFeatureText (gate_cutoff a.now.gates e) features.now) }
    ensures config { OnOk result (IsRuntimeText (cutoff a.now.apis e) config.now) }
    ensures view { IfOk result (IsViewByTexts a.now e features.now config.now) }
    ensures fault { IfErr result (IsFlagsFault a.now e features.now config.now) }
    ensures refused { IfErr result (IsRefusedText a.now e features.now config.now) }
{
    let history = a.history();
    let gates = match gate_values(alloc, history.gates.items(), e, features) {
        Ok(gates) => gates,
        Err(fault) => return Err(FlagsFault::Features(fault)),
    };
    let on = match enabled_at(alloc, history.apis.items(), e, config) {
        Ok(on) => on,
        Err(fault) => return Err(FlagsFault::Runtime(fault)),
    };
    made(alloc, a, e, features, gates, config, on)
}
