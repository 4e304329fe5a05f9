//! The view of a release under a feature gate text and a runtime configuration.
#![tactic(auto)]

mod fault;
mod texts;

pub use fault::FlagsFault;
pub use texts::view_by_texts;
