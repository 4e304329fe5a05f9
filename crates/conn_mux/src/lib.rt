//! Many connections: the pieces that come of each are one stream, whose requests are taken in turn.
#![tactic(auto)]

mod buffer;
mod flow;
mod incoming;
mod law;
mod mux;

pub use incoming::Incoming;
pub use law::{
    cuts_change_no_item, events_have_one_order, mux_follows_streams, takings_are_the_items,
};
pub use mux::Mux;
