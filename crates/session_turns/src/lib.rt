//! The turns of a session: which items of its connections are answered, in which order, and after
//! how many events.
#![tactic(auto)]

mod law;

pub use law::{events_have_one_list_of_turns, takings_end, turns_are_in_order};
