//! The objects outside that a program is handed: where bytes come from and where they go, in memory and real.
#![tactic(auto)]

mod memory;
mod standard;
mod streams;

pub use memory::{MemSink, MemSource};
pub use standard::{StdSink, StdSource};
pub use streams::{Sink, Source};
