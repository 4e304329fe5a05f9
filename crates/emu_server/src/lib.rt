//! The program `kube_emu`: from its words, the bytes of a history and its world to what it writes and leaves.
#![tactic(auto)]

mod law;
mod refusals;
mod serving;
mod taking;
mod top;
mod writing;

pub use commands::Status;
pub use disk::{FailList, Failed};
pub use law::words_have_one_answer;
pub use outside::{MemSink, MemSource, Sink, Source, StdSink, StdSource};
pub use top::{run, run_plain};
