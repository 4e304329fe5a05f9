//! The documents of what a release serves: groups and their versions, resources, gates and releases (in the manner of
//! Kubernetes' discovery).
#![tactic(auto)]

mod gates;
mod groups;
mod law;
mod releases;
mod resources;
mod text;

pub use gates::metrics;
pub use groups::{group, group_list};
pub use law::{groups_are_exact, lists_are_in_order, metrics_are_exact};
pub use releases::version_info;
pub use resources::resource_list;
pub use text::group_version;
