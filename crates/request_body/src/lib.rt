//! What a request's body says: which object it is about, the fields that it gives, and its conditions.
#![tactic(auto)]

mod condition;
mod given;
mod law;
mod member;
mod members;
mod place;
mod version;
mod writes;

pub use condition::is_meant_for_another;
pub use given::name_in;
pub use law::{
    body_gives_one_map, body_has_one_misfit, one_field_is_first_missing, request_gives_one_map,
};
pub use member::Member;
pub use members::misfit;
pub use place::Place;
pub use writes::{fields_given, first_missing};
