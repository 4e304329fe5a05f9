//! The lines that tell why a text is refused, and how serving ended. Each ends with a line feed.
#![tactic(auto)]

mod options;
mod serving;

pub use options::{config_refusal, gate_refusal, version_refusal};
pub use serving::{not_a_store, served, unreadable};
