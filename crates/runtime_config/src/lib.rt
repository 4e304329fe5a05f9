//! Runtime configuration: which of the versions that are live at a release are served.
#![tactic(auto)]

mod config;
mod enabled;
mod fault;
mod keys;
mod law;
mod passes;
mod served;
mod standing;

pub use config::enabled_at;
pub use enabled::Enabled;
pub use fault::{ConfigCause, ConfigFault};
pub use law::{config_has_one_answer, emulation_of_config, texts_by_same_versions};
