//! Scripts: what connections of a server bring, as a value and as text.
#![tactic(auto)]

mod connections;
mod hex;
mod json;
mod law;
mod line;
mod lines;
mod notes;
mod number;
mod read;
mod script;

pub use law::{line_writes_one_event, text_means_one_script};
pub use notes::Notes;
pub use read::ScriptFault;
pub use script::{Script, ScriptEvent, ScriptParts};
