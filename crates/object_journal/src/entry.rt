use crate::key::Key;
use basis::Sequence;
use minor_version::Blob;

/// What an entry does to its key.
#[derive(Debug, Drop)]
pub enum Change {
    /// The key holds this body from here on.
    Put {
        /// The revision at which the key was created.
        created: u64,
        /// The stored body.
        body: Blob,
    },
    /// The key is held no more.
    Removal,
}

/// A change of one key, at a revision.
#[derive(Debug, Drop)]
pub struct Entry {
    pub key: Key,
    pub revision: u64,
    pub change: Change,
}

/// Entries, in their order.
pub type Entries = Sequence<Entry>;
