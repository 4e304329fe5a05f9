//! Releases as minor versions of major version 1, and texts and bytes as values.
#![tactic(auto)]

mod blob;
mod decimal;
mod minor;
mod text;

pub use basis::Memory;
pub use blob::Blob;
pub use decimal::small_number;
pub use minor::{BadMinor, Minor, floor, from_number, parse, parse_plain};
pub use text::{Text, TextFault, text_is_utf8};
