//! The journal of the records: what a file of it means, byte for byte.
#![tactic(auto)]

mod appending;
mod entry;
mod framed;
mod gather;
mod held;
mod key;
mod law;
mod opening;
mod parting;
mod parts;
mod put;
mod reader;
mod reading;
mod rules;

pub use appending::Journal;
pub use entry::{Change, Entries, Entry};
pub use framed::{FrameFault, Framed, frame};
pub use gather::Gather;
pub use held::MOST_KEYS;
pub use key::Key;
pub use law::{bytes_have_one_reading, last_revision_is_the_greatest, record_is_read_again};
pub use opening::{OpenFault, open_journal, open_journal_into};
pub use rules::LAST_REVISION;
