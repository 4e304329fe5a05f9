//! Steps of a server one after another, and the records that are kept of its objects.
#![tactic(auto)]

mod law;
mod texts;

pub use law::{
    changes_are_storable, kept_records_go_on_standing, standing_objects_fit, steps_are_joined,
    steps_have_one_end, steps_keep_what_holds,
};
