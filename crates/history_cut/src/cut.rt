ghost use Rattle.std.specs.Prelude.{◌≡◌, ◌↔◌, IfOk, OnOk, IsErrOf, IsTrue};
ghost use Rattle.history_cut.specs.Range.{IsWithin, IsOutside};
ghost use Rattle.schemas.specs.Cutoff.{cutoff as history_cutoff};
ghost use Rattle.schemas.specs.Rules.{IsAccepted};

use crate::fault::CutFault;
use crate::kept::{kept_apis, kept_fields, kept_gates, kept_spells};
use crate::law::cutoff_is_accepted;
use basis::Memory;
use minor_version::Minor;
use schemas::{Accepted, History};
use std::alloc::Global;

/// Whether the history speaks of the release.
fn is_within(a: &Accepted, o: Minor) -> bool
    ensures { IsTrue result ↔ IsWithin a.now o }
{
    a.first() <= o && o <= a.last()
}

/// The history without the entries dated after the release, which is its last one then.
fn cut_history(alloc: Global, history: &History, o: Minor) -> Result<History, Memory>
    ensures { IfOk result (λ cut. cut ≡ history_cutoff history.now o) }
{
    let _number = o.number();
    Ok(History {
        first: history.first,
        last: Some(o),
        gates: kept_gates(alloc, history.gates.items(), o)?,
        apis: kept_apis(alloc, history.apis.items(), o)?,
        fields: kept_fields(alloc, history.fields.items(), o)?,
        spells: kept_spells(alloc, history.spells.items(), o)?,
    })
}

/// The history cut at one of its releases: without the entries dated after it, and with it as the last release. That
/// history is accepted too.
///
/// Errors: the release is below the history's first one or above its last; want of memory.
pub fn cutoff(alloc: Global, a: &Accepted, o: Minor) -> Result<Accepted, CutFault>
    ensures cut { IfOk result (λ cut. cut ≡ history_cutoff a.now o) }
    ensures accepted { IfOk result IsAccepted }
    ensures within { OnOk result (IsWithin a.now o) }
    ensures outside { IsErrOf result CutFault.OutOfRange ↔ IsOutside a.now o }
{
    if !is_within(a, o) {
        return Err(CutFault::OutOfRange);
    }
    let history = a.history();
    cutoff_is_accepted(history, o);
    let cut = cut_history(alloc, history, o)?;
    Ok(Accepted::take(cut))
}
