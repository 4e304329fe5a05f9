//! The command `cut`: the history as it stood at one of its releases.
ghost use Rattle.std.specs.Prelude.{◌≡◌, IfOk, string_bytes};
ghost use Rattle.commands.specs.Answers.{Meets};
ghost use Rattle.commands.specs.Cut.{IsCutting, at_line};

use crate::answer::Answer;
use crate::fold::document;
use crate::status::Status;
use answer_lines::version_refusal;
use basis::Memory;
use history_cut::{CutFault, cutoff};
use minor_version::parse;
use release_choice::VersionFault;
use schemas::Accepted;
use std::alloc::Global;

fn refused(alloc: Global, accepted: &Accepted, fault: VersionFault) -> Result<Answer, Memory>
    ensures { IfOk result (λ a. (a.status ≡ Status.Flags) × (string_bytes a.text ≡ at_line accepted.now fault)) }
{
    let (low, high) = (accepted.first(), accepted.last());
    let text = version_refusal(alloc, "at", low, high, fault)?;
    Ok(Answer::refused_option(text))
}

/// The document of the history cut at the release that the text names, or why the text is refused.
pub fn answer(alloc: Global, at: &str, accepted: &Accepted) -> Result<Answer, Memory>
    ensures { IfOk result (Meets (IsCutting at.now accepted.now)) }
{
    let Ok(o) = parse(at.as_bytes()) else {
        return refused(alloc, accepted, VersionFault::NotAVersion);
    };
    match cutoff(alloc, accepted, o) {
        Ok(cut) => document(alloc, &cut),
        Err(CutFault::OutOfRange) => refused(alloc, accepted, VersionFault::OutOfRange),
        Err(CutFault::Memory) => Err(Memory),
    }
}
