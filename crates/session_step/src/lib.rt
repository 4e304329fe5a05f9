//! One item of a connection is carried out, and its reply sent.
#![tactic(auto)]

mod outgoing;
mod step;

pub use step::answer;
