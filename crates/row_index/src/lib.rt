//! An index of the fields and spellings that a release knows, from which the rows of a version's table are made
//! without going over the whole history.
#![tactic(auto)]

mod index;
mod keys;
mod law;
mod made;

pub use index::RowIndex;
pub use law::{cut_knows_same, version_has_one_table};
