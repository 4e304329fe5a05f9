use disk::File;
use minor_version::{Minor, Text};
use object_journal::Key;
use std::error::Error;
use std::fmt;

/// Why a session over a store isn't begun, or ends before its front does.
#[derive(Debug, Drop)]
pub enum StoreFault {
    /// A file of the store breaks the journal's grammar at this place, in bytes.
    NotAStore {
        file: File,
        at: u64,
    },
    /// The record under this key is in a version, as its body tells it, that this release doesn't read.
    Undecodable {
        key: Key,
        version: Text,
        minor: Minor,
    },
    /// The disk failed.
    Disk,
    /// No event could be taken.
    Front,
    /// So many events were taken as a session takes at most.
    Spent,
    /// Memory ran out, before or between writes.
    Memory,
}

impl fmt::Display for StoreFault {
    fn fmt<W: fmt::Write>(&self, f: &mut fmt::Formatter<W>) -> fmt::Result {
        match self {
            StoreFault::NotAStore { .. } => f.write_str("not a store"),
            StoreFault::Undecodable { .. } => f.write_str("not readable"),
            StoreFault::Disk => f.write_str("disk fault"),
            StoreFault::Front => f.write_str("front fault"),
            StoreFault::Spent => f.write_str("too many events"),
            StoreFault::Memory => f.write_str("out of memory"),
        }
    }
}

impl Error for StoreFault {}
