//! What one request means: its reply, and the state after it.
#![tactic(auto)]

mod answer;
mod call;
mod decision;
mod head;
mod law;
mod machine;
mod outcome;
mod read;
mod stop;
mod write;

pub use decision::Decided;
pub use law::{
    refused_request_leaves_state, request_changes_one_key, request_counts_records,
    request_has_known_code, request_has_one_step, request_has_one_verdict, request_keeps_fitting,
};
pub use machine::Machine;
pub use outcome::decide;
