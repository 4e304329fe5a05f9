//! What becomes of an object's fields whose feature gate is off.
#![tactic(auto)]

mod dropping;

pub use dropping::drop_fields;
