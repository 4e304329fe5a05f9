//! What a request's path asks for, of what a release serves: pages, and objects of resources; with
//! the methods that may be used, the queries that are refused, and what a client is told of a
//! deprecated version.
#![tactic(auto)]

mod asked;
mod query;
mod target;
mod warning;

pub use asked::{path_asks_for_one, target_of};
pub use query::unsupported;
pub use target::{Methods, Resource, Target};
pub use warning::{plain_names_warn_plainly, warning_of};
