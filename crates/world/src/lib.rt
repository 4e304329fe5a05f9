//! The events of a server's connections, the trait of what brings them, and a world in memory.
#![tactic(auto)]

mod event;
mod front;
mod law;
mod mem_world;
mod outbox;
mod place;
mod sent;
mod tape;

pub use event::Event;
pub use front::Front;
pub use law::{fronts_only_grow, last_replies_shut, lawful_events_are_in_turn};
pub use mem_world::MemWorld;
pub use sent::Sent;
pub use tape::Tape;
