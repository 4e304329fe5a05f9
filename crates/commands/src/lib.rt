//! The commands that read a history and print an answer: what each is to say of an accepted history.
#![tactic(auto)]

mod answer;
mod check;
mod convert;
mod cut;
mod discover;
mod endings;
mod fold;
mod gates;
mod law;
mod options;
mod plain;
mod status;
mod twins;

pub use answer::Answer;
pub use endings::{line_of, status_of};
pub use law::work_has_one_answer;
pub use options::texts_in;
pub use plain::{is_plain, work};
pub use status::Status;
