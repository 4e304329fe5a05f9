//! What the other crates share: want of memory, counts of faults, lists that begin without memory, and the texts of
//! names.
#![tactic(auto)]

mod memory;
mod name_map;
mod names;
mod sequence;

pub use memory::Memory;
pub use name_map::{NameMap, put, value_of};
pub use names::{is_camel_word, is_dotted_labels, is_label, is_lower_word, is_pascal_word};
pub use sequence::Sequence;
