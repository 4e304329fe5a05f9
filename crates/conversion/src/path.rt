//! Paths and faults of reading, as texts.
ghost use Rattle.std.specs.Prelude.{◌≡◌, ◌++◌, IfOk, codes, string_bytes};
ghost use Rattle.std.specs.List.{flat_map};
ghost use Rattle.conversion.specs.Paths.{dotted, fault_text};

use crate::fault::ReadCause;
use basis::Memory;
use minor_version::Text;
use std::alloc::{AllocError, Global};

// The text, and behind it each name with a dot before it.
fn with_inner(front: String, names: &[Text]) -> Result<String, AllocError>
    ensures { IfOk result (λ s. string_bytes s ≡ string_bytes front ++ flat_map (λ name. codes "." ++ name) names.now) }
{
    let mut text = front;
    for name in names {
        text.push_str(".")?;
        text.push_str(name.as_str())?;
    }
    Ok(text)
}

/// The names of a path, joined by dots.
pub fn dotted(alloc: Global, path: &[Text]) -> Result<String, AllocError>
    ensures { IfOk result (λ s. string_bytes s ≡ dotted path.now) }
{
    match path {
        [] => Ok(String::new(alloc)),
        [first, rest @ ..] => with_inner(String::from_str(alloc, first.as_str())?, rest),
    }
}

fn joined(alloc: Global, path: &str, cause: &str) -> Result<String, AllocError>
    ensures { IfOk result (λ s. string_bytes s ≡ path.now ++ (codes ": " ++ cause.now)) }
{
    format!(in alloc; "{path}: {cause}")
}

/// What is said of a field that can't be read: the path up to what is wrong, and the cause.
pub fn fault_text(alloc: Global, path: &[Text], cause: ReadCause) -> Result<String, Memory>
    ensures { IfOk result (λ s. string_bytes s ≡ fault_text path.now cause) }
{
    let path = dotted(alloc, path)?;
    Ok(joined(alloc, path.as_str(), cause.text())?)
}
