//! The command `discover`: the group list of a release under a runtime configuration.
ghost use Rattle.std.specs.Prelude.{◌≡◌, IfOk, string_bytes};
ghost use Rattle.commands.specs.Answers.{Meets};
ghost use Rattle.commands.specs.Discover.{IsListing, group_list_text};
ghost use Rattle.release_choice.specs.Choice.{text_of};

use crate::answer::Answer;
use crate::options::{emulated_refusal, text_or_empty};
use answer_lines::config_refusal;
use basis::Memory;
use discovery::group_list;
use release_choice::emulated_release;
use release_view::{View, view_by_config};
use runtime_config::ConfigFault;
use schemas::Accepted;
use std::alloc::Global;

/// The group list of a release, in compact JSON, and one line feed.
fn group_list_line(alloc: Global, view: &View) -> Result<String, Memory>
    ensures { IfOk result (λ s. string_bytes s ≡ group_list_text view.now) }
{
    let value = group_list(alloc, view)?;
    let mut text = value.to_string(alloc)?;
    text.push('\n')?;
    Ok(text)
}

/// The group list of a release, or why the release or its runtime configuration is refused.
pub fn answer(
    alloc: Global,
    emulated: Option<&str>,
    runtime: Option<&str>,
    accepted: &Accepted,
) -> Result<Answer, Memory>
    ensures { IfOk result (Meets (IsListing (text_of emulated.entry) (text_of runtime.entry) accepted.now)) }
{
    let e = match emulated_release(emulated, accepted) {
        Ok(e) => e,
        Err(fault) => return emulated_refusal(alloc, accepted, fault),
    };
    let runtime = text_or_empty(runtime);
    match view_by_config(alloc, accepted, e, runtime.as_bytes()) {
        Ok(view) => {
            let text = group_list_line(alloc, &view)?;
            Ok(Answer::done(text))
        }
        Err(ConfigFault::Memory) => Err(Memory),
        Err(fault) => {
            let text = config_refusal(alloc, fault)?;
            Ok(Answer::refused_option(text))
        }
    }
}
