//! What objects are converted to.
use basis::Memory;
use object_convert::{ConvertFault, convert};
use release_view::View;
use std::alloc::Global;

/// The version to go to and an object: the object in that version, or why there is none.
pub fn answer(alloc: Global, view: &View, question: &str) -> Result<String, Memory> {
    let (to, object) = question.split_once(' ').unwrap_or((question, ""));
    match convert(alloc, view, object, to) {
        Ok(json) => Ok(json.to_string(alloc)?),
        Err(ConvertFault::Memory) => Err(Memory),
        Err(fault) => Ok(format!(in alloc; "{fault}")?),
    }
}
