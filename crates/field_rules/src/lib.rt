//! The rules that the fields and spellings of a release history keep, and the first fault of those that break them.
#![tactic(auto)]

mod broken;
mod entries;
mod index;
mod keys;
mod on_fields;
mod on_spellings;
mod types;

pub use broken::first_broken;
