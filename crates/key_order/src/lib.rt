//! Lists of anything in the order of their keys.
#![tactic(auto)]

mod keyed;
mod stretch;

pub use keyed::{Keyed, held, place_of, put, take_out};
pub use stretch::{inside, of_resource};
