//! A release history as its document (TOML 1.1), which is read as the same history.
//!
//! `members` has the members of a table in their order, `gates`, `apis` and `fields_of` those of an entry's table, `text` writes
//! a table, and `write` the document: a line for each entry.
#![tactic(auto)]

mod apis;
mod entry;
mod fields_of;
mod gates;
mod members;
mod text;
mod words;
mod write;

pub use write::to_toml;
