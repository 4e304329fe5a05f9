//! A release history from its document (TOML 1.1), or the first fault of the document and its place.
//!
//! What a document may hold is the member table: `rows` has the rows of each table, `demand` what a row can demand,
//! and `fault` goes over them in order. `entries` makes entries of tables in which no fault was found, by `gates`, `apis` and
//! `fields_of`.
#![tactic(auto)]

mod apis;
mod demand;
mod entries;
mod fault;
mod fields_of;
mod gates;
mod laws;
mod member;
mod read;
mod rows;
mod tree;
mod words;

pub use laws::reading_has_one_answer;
pub use read::{HistoryFault, LONGEST_DOCUMENT, read_history};
pub use schemas::Array;
