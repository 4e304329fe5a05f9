//! What a server does on its front between two moments: turns, their sends, and what a stop leaves at
//! each moment.
#![tactic(auto)]

mod law;

pub use law::courses_are_joined;
