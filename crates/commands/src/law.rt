//! What follows from the definitions, as the contract of a function that does nothing.
ghost use Rattle.commands.specs.Laws.{HasOneAnswer};

use schemas::Accepted;

/// On an accepted history a command has at most one answer: one status, and one text that is written with it.
pub fn work_has_one_answer(accepted: &Accepted)
    ensures { HasOneAnswer accepted.now }
{
    let _history = accepted.history();
    let _last = accepted.last();
}
