//! The lines of a text.
ghost use Rattle.std.specs.Prelude.{◌≡◌, ◌==◌, IfOk, map};
ghost use Rattle.std.specs.List.{slice_split};
ghost use Rattle.scripts.specs.Lines.{lines, unended};

use basis::Memory;
use std::alloc::{AllocError, Global};

// The text without the line feed at its end.
fn unended(text: &[u8]) -> &[u8]
    ensures { result.now ≡ unended text.now }
{
    let length = text.len();
    if length > 0 && text[length - 1] == b'\n' {
        text.split_at(length - 1).0
    } else {
        text
    }
}

// The texts between the line feeds.
fn parts<'a>(alloc: Global, text: &'a [u8]) -> Result<Vec<&'a [u8]>, AllocError>
    ensures { IfOk result (λ v. map (λ r. r.now) v.items ≡ slice_split (λ c. c == 10) text.now) }
{
    text.split(|byte| *byte == b'\n').collect(alloc)
}

/// The lines of a text, each of which ends at a line feed; the last one may end with the text.
pub fn lines(alloc: Global, text: &[u8]) -> Result<Vec<&[u8]>, Memory>
    ensures { IfOk result (λ v. map (λ r. r.now) v.items ≡ lines text.now) }
{
    if text.is_empty() {
        return Ok(Vec::new(alloc));
    }
    match parts(alloc, unended(text)) {
        Ok(lines) => Ok(lines),
        Err(_) => Err(Memory),
    }
}
