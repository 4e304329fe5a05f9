//! The releases that a server is for, as texts choose them: the one that it emulates, and the earliest that may open its store.
#![tactic(auto)]

mod choice;
mod fault;

pub use choice::{emulated_release, least_release};
pub use fault::VersionFault;
