//! A server over a store: each request is one step of the plain machine, and its records are kept so that an earlier release
//! finds the same objects.
#![tactic(auto)]

mod fault;
mod law;
mod prepared;
mod service;

pub use fault::HandleFault;
pub use law::{service_is_kept, standing_service_restores};
pub use prepared::Prepared;
pub use service::{Service, start};
pub use stored_state::StartFault;
