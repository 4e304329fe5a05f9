//! An index of what a release knows of each API version, so that no look-up goes over the whole history.
#![tactic(auto)]

mod event;
mod index;

pub use index::VersionIndex;
