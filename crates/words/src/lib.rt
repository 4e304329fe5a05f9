//! The words of a command line, and the commands that they ask for.
#![tactic(auto)]

mod command;
mod decimal;
mod law;
mod parsing;
mod places;
mod read;
mod rows;
mod settings;
mod values;

pub use command::{Command, FlagTexts, WordsFault};
pub use law::words_have_one_command;
pub use places::{Places, places_of};
pub use read::read_words;
