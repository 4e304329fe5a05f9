//! The documents of objects: an object whole, a list of objects, and what answers a deletion.
#![tactic(auto)]

mod body;
mod law;
mod list;
mod page;

pub use body::{deletion_page, document_body};
pub use law::{held_objects_fit, objects_have_one_page};
pub use list::list_page;
pub use page::object_page;
