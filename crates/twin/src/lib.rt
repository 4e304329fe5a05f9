//! A workload that a seed makes, run by the folded history and by the cut one: both send the same.
#![tactic(auto)]

mod count;
mod law;
mod running;
mod sends;
mod twins;

pub use count::TwinCount;
pub use law::twin_has_one_count;
pub use twins::twin;
