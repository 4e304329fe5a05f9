//! The real world: a disk of files, and the events of a script or of the connections of a listener. It tells nothing:
//! what is proved of it are its counts.
#![tactic(auto)]

mod clients;
mod connection;
mod fault;
mod listener;
mod outgoing;
mod real;
mod script;
mod store;
mod table;

pub use fault::WorldFault;
pub use real::RealWorld;
