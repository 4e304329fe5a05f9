//! The texts of options.
ghost use Rattle.std.specs.Prelude.{◌≡◌, [], IfOk, string_bytes, unwrap_or};
ghost use Rattle.commands.specs.Releases.{emulated_line};
ghost use Rattle.commands.specs.Texts.{texts_given};
ghost use Rattle.release_choice.specs.Choice.{text_of};
ghost use Rattle.served_history.specs.Releases.{flag_texts};

use crate::answer::Answer;
use crate::status::Status;
use answer_lines::version_refusal;
use basis::Memory;
use minor_version::Text;
use release_choice::VersionFault;
use schemas::Accepted;
use served_history::Texts;
use std::alloc::Global;
use words::FlagTexts;

/// The text, where it is given.
pub fn given(text: &Option<Text>) -> Option<&str>
    ensures { text_of result ≡ text.now }
{
    match text {
        Some(text) => Some(text.as_str()),
        None => None,
    }
}

/// The text, or the empty one.
pub fn text_or_empty(text: Option<&str>) -> &str
    ensures { result.now ≡ unwrap_or (text_of text.entry) [] }
{
    match text {
        Some(text) => text,
        None => "",
    }
}

/// The texts that choose what is served.
pub fn texts_in(flags: &FlagTexts) -> Texts<'_>
    ensures { flag_texts result ≡ texts_given flags.now }
{
    Texts {
        emulated: given(&flags.emulated),
        least: given(&flags.min_compatibility),
        features: given(&flags.features),
        runtime: given(&flags.runtime),
    }
}

/// Why the release to emulate is refused, with the releases that may be emulated.
pub fn emulated_refusal(
    alloc: Global,
    accepted: &Accepted,
    fault: VersionFault,
) -> Result<Answer, Memory>
    ensures { IfOk result (λ a. (a.status ≡ Status.Flags) × (string_bytes a.text ≡ emulated_line accepted.now fault)) }
{
    let (low, high) = (accepted.floor(), accepted.last());
    let text = version_refusal(alloc, "emulated-version", low, high, fault)?;
    Ok(Answer::refused_option(text))
}
