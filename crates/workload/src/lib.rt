//! A script of requests that a number makes for what a release serves.
#![tactic(auto)]

mod body;
mod choice;
mod draws;
mod groups;
mod law;
mod parts;
mod request;
mod script;
mod text;
mod values;

pub use law::{requests_come_whole, workload_is_one};
pub use script::generate;
