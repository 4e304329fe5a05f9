//! What the tables of a release say of its view, each as the contract of a function that does nothing.
ghost use Rattle.std.specs.Prelude.{◌≡◌, ◌≤◌};
ghost use Rattle.flag_text.specs.Pieces.{pieces};
ghost use Rattle.gate_flags.specs.Flags.{IsFeatureText};
ghost use Rattle.gate_flags.specs.Values.{AreGateValues};
ghost use Rattle.gate_spec.specs.Gates.{cutoff as gate_cutoff};
ghost use Rattle.lifecycle.specs.Tables.{cutoff};
ghost use Rattle.release_view.specs.Later.{ReadsLiveOf};
ghost use Rattle.release_view.specs.Laws.{HasOneView};
ghost use Rattle.release_view.specs.Same.{HaveSameTables, HaveSameViews, SpeaksOf, TakeSameTexts};
ghost use Rattle.release_view.specs.Views.{IsViewable};
ghost use Rattle.runtime_config.specs.Config.{AreServed};
ghost use Rattle.schemas.specs.Cutoff.{cutoff as history_cutoff};
ghost use Rattle.schemas.specs.Rules.{first_of, last_of};

use crate::release::View;
use gate_flags::GateValues;
use minor_version::Minor;
use runtime_config::Enabled;
use schemas::{Accepted, History};

/// The tables of a release, the values of its gates and its served versions determine its view; where the history is
/// cut at the release or at a later one, the view is the same.
pub fn tables_determine_view(history: &History, cut: &History, e: Minor, o: Minor)
    requires cut { cut.now ≡ history_cutoff history.now o }
    requires later { e ≤ o }
    requires within { o ≤ last_of history.now }
    ensures { HasOneView history.now cut.now e }
{}

/// Histories that have the same tables at a release of which both speak have the same views of it, and take the same
/// texts.
pub fn same_tables_view_alike(history: &History, other: &History, e: Minor)
    requires same { HaveSameTables history.now other.now e }
    requires of_first { SpeaksOf history.now e }
    requires of_second { SpeaksOf other.now e }
    ensures views { HaveSameViews history.now other.now e }
    ensures texts { TakeSameTexts history.now other.now e }
{}

/// The release e of an accepted history may be viewed with what valid texts make of its gates and versions.
pub fn texts_make_view(
    a: &Accepted,
    e: Minor,
    features: &[u8],
    gates: &GateValues,
    config: &[u8],
    on: &Enabled,
)
    requires from { first_of a.now ≤ e }
    requires to { e ≤ last_of a.now }
    requires features { IsFeatureText (gate_cutoff a.now.gates e) features.now }
    requires gates { AreGateValues (gate_cutoff a.now.gates e) (pieces features.now) gates.now }
    requires on { AreServed (cutoff a.now.apis e) (pieces config.now) on.now }
    ensures { IsViewable a.now e gates.now on.now }
{
    let history = a.history();
    let _gates = &history.gates;
}

/// What is live in a view of an accepted history is read in a later view of it, up to three releases on, with the rows
/// that it has in the earlier one.
pub fn later_view_reads_live(back: &View, view: &View)
    ensures { ReadsLiveOf back.now view.now }
{
    let _back = back;
    let _view = view;
}
