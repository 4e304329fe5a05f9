//! A session: the connections of a front are served by a server over a store, one event after another.
#![tactic(auto)]

mod event;
mod piece;
mod serving;

pub use serving::session;
