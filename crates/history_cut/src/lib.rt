//! A release history cut at one of its releases, as if it ended there.
#![tactic(auto)]

mod copy;
mod cut;
mod fault;
mod kept;
mod law;

pub use copy::{copy_of_api, copy_of_field, copy_of_gate, copy_of_spell};
pub use cut::cutoff;
pub use fault::CutFault;
pub use law::{cutoff_is_accepted, cutoff_of_cutoff, cutoff_twice_is_once};
