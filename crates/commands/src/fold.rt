//! The command `fold`: the history without what no release that may be emulated needs.
ghost use Rattle.std.specs.Prelude.{IfOk};
ghost use Rattle.commands.specs.Answers.{Meets};
ghost use Rattle.commands.specs.Fold.{IsDocument, IsFolding};

use crate::answer::Answer;
use basis::Memory;
use history_fold::fold;
use history_toml::to_toml;
use schemas::Accepted;
use std::alloc::Global;

/// The document of a history.
pub fn document(alloc: Global, accepted: &Accepted) -> Result<Answer, Memory>
    ensures { IfOk result (Meets (IsDocument accepted.now)) }
{
    let text = to_toml(alloc, accepted.history())?;
    let text = String::from_str(alloc, text.as_str())?;
    Ok(Answer::done(text))
}

/// The document of the folded history.
pub fn answer(alloc: Global, accepted: &Accepted) -> Result<Answer, Memory>
    ensures { IfOk result (Meets (IsFolding accepted.now)) }
{
    let folded = fold(alloc, accepted)?;
    document(alloc, &folded)
}
