//! The command `convert`: an object in another version of its resource.
ghost use Rattle.std.specs.Prelude.{◌≡◌, ◌++◌, ◌∷◌, [], false, IfOk, codes, string_bytes};
ghost use Rattle.conversion.specs.Paths.{fault_text};
ghost use Rattle.serde_json.specs.View.{view as tree_of};
ghost use Rattle.serde_json.specs.Written.{has_float, compact_text};
ghost use Rattle.commands.specs.Answers.{Meets};
ghost use Rattle.commands.specs.Convert.{IsConversion, convert_fault_line};
ghost use Rattle.release_choice.specs.Choice.{text_of};

use crate::answer::Answer;
use crate::options::emulated_refusal;
use basis::Memory;
use conversion::{ReadCause, fault_text};
use minor_version::Text;
use object_convert::{ConvertFault, convert};
use release_choice::emulated_release;
use release_view::default_view;
use schemas::Accepted;
use serde_json::Value;
use std::alloc::{AllocError, Global};

fn unreadable_line(alloc: Global, fault: &str) -> Result<String, AllocError>
    ensures { IfOk result (λ s. string_bytes s ≡ codes "object: " ++ (fault.now ++ codes "\n")) }
{
    format!(in alloc; "object: {fault}\n")
}

fn unreadable(alloc: Global, path: &[Text], cause: ReadCause) -> Result<String, Memory>
    ensures { IfOk result
        (λ s. string_bytes s ≡ codes "object: " ++ (fault_text path.now cause ++ codes "\n")) }
{
    let fault = fault_text(alloc, path, cause)?;
    Ok(unreadable_line(alloc, fault.as_str())?)
}

/// Why an object isn't converted.
fn convert_refusal(alloc: Global, fault: &ConvertFault) -> Result<String, Memory>
    ensures { IfOk result (λ s. string_bytes s ≡ convert_fault_line fault.now) }
{
    match fault {
        ConvertFault::NotAnObject => Ok(String::from_str(alloc, "object: not a JSON object\n")?),
        ConvertFault::UnknownVersion => Ok(String::from_str(alloc, "object: unknown version\n")?),
        ConvertFault::Bad { path, cause } => unreadable(alloc, path.items(), *cause),
        ConvertFault::UnknownTarget => Ok(String::from_str(alloc, "to: unknown version\n")?),
        ConvertFault::Memory => Ok(String::from_str(alloc, "")?),
    }
}

/// The text of an object, in compact JSON, and one line feed.
fn object_line(alloc: Global, json: &Value) -> Result<String, AllocError>
    requires { has_float (tree_of json.now) ≡ false }
    ensures { IfOk result (λ s. string_bytes s ≡ compact_text (tree_of json.now) ++ 10 ∷ []) }
{
    let mut text = json.to_string(alloc)?;
    text.push_str("\n")?;
    Ok(text)
}

/// An object in another version of its resource by a release, or why the release or the object is refused.
pub fn answer(
    alloc: Global,
    emulated: Option<&str>,
    object: &str,
    to: &str,
    accepted: &Accepted,
) -> Result<Answer, Memory>
    ensures { IfOk result (Meets (IsConversion (text_of emulated.entry) object.now to.now accepted.now)) }
{
    let e = match emulated_release(emulated, accepted) {
        Ok(e) => e,
        Err(fault) => return emulated_refusal(alloc, accepted, fault),
    };
    let view = default_view(alloc, accepted, e)?;
    match convert(alloc, &view, object, to) {
        Ok(json) => {
            let text = object_line(alloc, &json)?;
            Ok(Answer::done(text))
        }
        Err(ConvertFault::Memory) => Err(Memory),
        Err(fault) => {
            let text = convert_refusal(alloc, &fault)?;
            Ok(Answer::refused_option(text))
        }
    }
}
