//! The state that the records of a store stand for, as two releases read them.
#![tactic(auto)]

mod fault;
mod law;
mod reading;
mod record;

pub use fault::StartFault;
pub use law::{records_have_one_answer, recovered_records_are_within, store_holds_within};
pub use reading::read_state;
