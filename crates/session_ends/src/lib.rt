//! How a session over the connections of a front ends, and what it leaves.
#![tactic(auto)]

mod fault;
mod law;
mod served;

pub use fault::SessionFault;
pub use law::{courses_make_sessions, ended_fronts_are_taken, pieces_have_their_turns};
pub use served::Served;
