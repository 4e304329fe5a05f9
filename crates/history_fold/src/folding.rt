ghost use Rattle.std.specs.Prelude.{◌≡◌, IfOk};
ghost use Rattle.history_fold.specs.Folded.{folded_at, folded as history_folded};
ghost use Rattle.schemas.specs.Rules.{IsAccepted};

use crate::kept::{kept_apis, kept_fields, kept_gates, kept_spells};
use crate::law::folded_is_accepted;
use basis::Memory;
use minor_version::Minor;
use schemas::{Accepted, History};
use std::alloc::Global;

/// The history without what no release from the floor on needs. The floor is its first release then.
fn folded_history(alloc: Global, history: &History, floor: Minor) -> Result<History, Memory>
    ensures { IfOk result (λ folded. folded ≡ folded_at history.now floor) }
{
    let _number = floor.number();
    let apis = history.apis.items();
    Ok(History {
        first: Some(floor),
        last: history.last,
        gates: kept_gates(alloc, history.gates.items(), floor)?,
        apis: kept_apis(alloc, apis, floor)?,
        fields: kept_fields(alloc, history.fields.items())?,
        spells: kept_spells(alloc, apis, history.spells.items(), floor)?,
    })
}

/// The history folded: its floor, the lowest release that may be emulated, becomes the first one, and what no release
/// from there on needs is gone: each spec of a gate that a later one has followed by the floor, and all entries and
/// spellings of each version that is forgotten by then. That history is accepted too.
///
/// Errors: want of memory.
pub fn fold(alloc: Global, a: &Accepted) -> Result<Accepted, Memory>
    ensures folded { IfOk result (λ folded. folded ≡ history_folded a.now) }
    ensures accepted { IfOk result IsAccepted }
{
    let history = a.history();
    folded_is_accepted(history);
    let folded = folded_history(alloc, history, a.floor())?;
    Ok(Accepted::take(folded))
}
