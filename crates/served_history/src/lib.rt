//! What is served of a release history: the release that texts choose, over the store of a front's disk.
#![tactic(auto)]

mod fault;
mod law;
mod serving;
mod texts;
mod views;

pub use fault::ServeFault;
pub use law::cut_history_serves_alike;
pub use release_choice::VersionFault;
pub use serving::serve_history;
pub use session_ends::Served;
pub use texts::Texts;
pub use views::{Views, bytes_of, views_of};
