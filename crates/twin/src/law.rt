//! What follows from the definitions, as the contract of a function that does nothing.
ghost use Rattle.twin.specs.Laws.{HasOneCount, HasOneTwin};

use schemas::Accepted;

/// On an accepted history the releases, the texts, the seed and the size determine what a workload comes to.
pub fn twin_has_one_count(accepted: &Accepted)
    ensures run { HasOneCount accepted.now }
    ensures twin { HasOneTwin accepted.now }
{
    let _history = accepted.history();
    let _last = accepted.last();
}
