//! A release history folded: without what no release from its floor on needs.
#![tactic(auto)]

mod folding;
mod kept;
mod law;
mod past;

pub use folding::fold;
pub use law::{
    folded_has_same_faults, folded_has_same_tables, folded_is_accepted, folded_is_viewed_alike,
    folded_keeps_the_rest, folded_twice_is_once,
};
