//! What a server keeps of objects: each under its key, the revision of their store, and how many records that has.
#![tactic(auto)]

mod law;
mod object;
mod room;
mod state;

pub use law::{
    change_counts_objects, change_leaves_one_state, change_touches_one_key, key_holds_one_object,
    listed_objects_stand_by_name,
};
pub use object::{Change, Object, Stored};
pub use state::State;
