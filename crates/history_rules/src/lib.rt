//! The rules that a release history keeps (after the Kubernetes deprecation policy), and the first fault of one that
//! breaks them.
#![tactic(auto)]

mod accept;
mod api_rules;
mod dates;
mod fault;
mod followers;
mod gate_rules;
mod kinds;
mod late;
mod previous;

pub use accept::check;
pub use fault::CheckFault;
