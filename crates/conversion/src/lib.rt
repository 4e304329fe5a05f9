//! Objects as JSON in the versions of a resource: read as what their fields hold, and shown again.
#![tactic(auto)]

mod decimal;
mod fault;
mod fitting;
mod law;
mod mode;
mod number;
mod object;
mod path;
mod reach;
mod read;
mod show;
mod value;
mod whole;
mod write;

pub use fault::{ReadCause, ReadFault};
pub use fitting::fits;
pub use law::{
    fewer_rows_read_less, same_fields_fit_alike, there_and_back, tree_has_one_answer,
    what_is_shown_is_read, what_is_whole_is_read,
};
pub use mode::Mode;
pub use number::has_float;
pub use object::{object_of, taken, text_at};
pub use path::{dotted, fault_text};
pub use read::read_fields;
pub use show::show_fields;
pub use whole::whole_object;
