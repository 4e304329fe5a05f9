//! The command `check`: whether a history is accepted.
ghost use Rattle.std.specs.Prelude.{◌≡◌, ◌++◌, IfOk, string_bytes, codes, decimal};
ghost use Rattle.commands.specs.Answers.{Meets};
ghost use Rattle.commands.specs.Check.{IsAcceptance, accepted_line};

use crate::answer::Answer;
use basis::Memory;
use schemas::Accepted;
use std::alloc::{AllocError, Global};

fn counts(
    alloc: Global,
    gates: usize,
    apis: usize,
    fields: usize,
    spells: usize,
) -> Result<String, AllocError>
    ensures { IfOk result (λ s. string_bytes s ≡ decimal gates ++ (codes " gate, "
        ++ (decimal apis ++ (codes " api, " ++ (decimal fields ++ (codes " field, "
        ++ (decimal spells ++ codes " spell entries\n"))))))) }
{
    format!(in alloc; "{gates} gate, {apis} api, {fields} field, {spells} spell entries\n")
}

fn acceptance_of(alloc: Global, first: &str, last: &str, counts: &str) -> Result<String, AllocError>
    ensures { IfOk result (λ s. string_bytes s ≡ codes "accepted "
        ++ (first.now ++ (codes " to " ++ (last.now ++ (codes ": " ++ counts.now))))) }
{
    format!(in alloc; "accepted {first} to {last}: {counts}")
}

/// Of which releases an accepted history speaks, and how many entries it has.
fn acceptance(alloc: Global, accepted: &Accepted) -> Result<String, Memory>
    ensures { IfOk result (λ s. string_bytes s ≡ accepted_line accepted.now) }
{
    let first = accepted.first().text(alloc)?;
    let last = accepted.last().text(alloc)?;
    let history = accepted.history();
    let gates = history.gates.items().len();
    let apis = history.apis.items().len();
    let fields = history.fields.items().len();
    let spells = history.spells.items().len();
    let counts = counts(alloc, gates, apis, fields, spells)?;
    let text = acceptance_of(alloc, first.as_str(), last.as_str(), counts.as_str())?;
    Ok(text)
}

/// That the history is accepted.
pub fn answer(alloc: Global, accepted: &Accepted) -> Result<Answer, Memory>
    ensures { IfOk result (Meets (IsAcceptance accepted.now)) }
{
    let text = acceptance(alloc, accepted)?;
    Ok(Answer::done(text))
}
