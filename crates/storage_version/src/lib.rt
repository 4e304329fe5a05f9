//! Objects as they are stored: in the version that an earlier release reads, so that one may go back to it.
#![tactic(auto)]

mod body;
mod fault;
mod law;
mod storage;

pub use body::{decode_body, encode_body};
pub use fault::DecodeFault;
pub use law::{
    body_has_one_reading, earlier_release_reads_known, readable_records_stand, records_are_kept,
    records_go_on_standing, records_stand_for_one_state, release_reads_own,
    views_are_of_one_history, what_fits_is_stored,
};
pub use storage::storage_for;
