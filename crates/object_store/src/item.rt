use key_order::Keyed;
use minor_version::Blob;
use object_journal::Key;

/// A record that is held.
#[derive(Debug, Drop)]
pub struct Item {
    pub key: Key,
    /// The revision of its last put.
    pub revision: u64,
    /// The revision at which its key was created.
    pub created: u64,
    /// The stored body.
    pub body: Blob,
}

impl Keyed for Item {
    ghost key_of = { λ r. r.key };

    fn key(&self) -> &Key {
        &self.key
    }
}
