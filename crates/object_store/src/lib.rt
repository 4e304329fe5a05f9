//! The store: the records that a journal leaves, as a map from keys.
#![tactic(auto)]

mod item;
mod law;
mod opening;
mod places;
mod ready;
mod recovered;
mod store;

pub use item::Item;
pub use law::{
    bytes_give_one_list_of_records, entries_leave_one_list, same_meaning_gives_the_same_records,
};
pub use object_journal::OpenFault;
pub use opening::open_store;
pub use ready::{Ready, ReadyFault};
pub use store::Store;
