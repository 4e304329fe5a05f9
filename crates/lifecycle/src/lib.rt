//! Dated API versions: what a release history says of a version of a resource, and how versions are ordered.
#![tactic(auto)]

mod entry;
mod law;
mod tables;
mod version;

pub use entry::{ApiChange, ApiEntry, ApiName};
pub use law::emulation_of_versions;
pub use tables::{Warning, decodable_at, live_at, warning_at};
pub use version::{Level, VersionWord, version_word};
