//! Objects as JSON from one version of their resource to another.
#![tactic(auto)]

mod converting;
mod fault;
mod law;

pub use converting::convert;
pub use fault::ConvertFault;
pub use law::object_has_one_answer;
