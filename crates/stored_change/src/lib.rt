//! Changes of a state as entries of the journal.
#![tactic(auto)]

mod entry;

pub use entry::ready_change;
