//! The command `twin`: a generated workload on two servers that are to answer alike.
ghost use Rattle.std.specs.Prelude.{◌≡◌, ◌≤◌, IfOk, string_bytes};
ghost use Rattle.commands.specs.Answers.{Meets};
ghost use Rattle.commands.specs.Texts.{texts_given};
ghost use Rattle.commands.specs.Twins.{IsTwinning, equal_line};

use crate::answer::Answer;
use crate::endings::fault_line;
use crate::options::texts_in;
use basis::Memory;
use schemas::Accepted;
use std::alloc::{AllocError, Global};
use twin::{TwinCount, twin};
use words::FlagTexts;

/// How many requests a workload has at most.
pub const MOST_REQUESTS: u32 = 10_000;

/// What the workload came to on both sides.
fn equal_text(alloc: Global, count: TwinCount) -> Result<String, AllocError>
    ensures { IfOk result (λ s. string_bytes s ≡ equal_line count) }
{
    let requests = count.requests;
    let bytes = count.bytes;
    let revision = count.revision;
    format!(in alloc; "equal: {requests} requests, {bytes} bytes, revision {revision}\n")
}

/// The numbers of a workload that a server of the folded history and one of the cut history answer alike, or why one of the
/// texts is refused.
pub fn answer(
    alloc: Global,
    flags: &FlagTexts,
    seed: u64,
    size: u32,
    accepted: &Accepted,
) -> Result<Answer, Memory>
    requires { size ≤ 10000 }
    ensures { IfOk result (Meets (IsTwinning (texts_given flags.now) seed size accepted.now)) }
{
    match twin(alloc, accepted, texts_in(flags), seed, size) {
        Ok(count) => {
            let text = equal_text(alloc, count)?;
            Ok(Answer::done(text))
        }
        Err(fault) => {
            let text = fault_line(alloc, accepted, &fault)?;
            Ok(Answer::refused_option(text))
        }
    }
}
