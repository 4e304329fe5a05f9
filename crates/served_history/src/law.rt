//! What follows from the definitions, each law as the contract of a function that does nothing.
ghost use Rattle.served_history.specs.Laws.{IsViewedAlikeWhereCut, ServesAlikeWhereCut};

use schemas::History;

/// Texts make the same views of a release by a history and by its cuts; and a binary of the history cut at the release that is
/// emulated serves the same, with its own release on the version page.
pub fn cut_history_serves_alike(history: &History)
    ensures views { IsViewedAlikeWhereCut history.now }
    ensures serves { ServesAlikeWhereCut history.now }
{
    let _gates = &history.gates;
}
