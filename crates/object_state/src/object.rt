use fields::Fields;
use key_order::Keyed;
use object_journal::Key;

/// An object as a server keeps it.
#[derive(Debug, Drop)]
pub struct Object {
    /// The revision at which its key was created.
    pub created: u64,
    /// The revision of its last change.
    pub revision: u64,
    pub fields: Fields,
}

/// An object under its key.
#[derive(Debug, Drop)]
pub struct Stored {
    pub key: Key,
    pub object: Object,
}

/// What a request does to the state: what its key holds afterwards, if anything.
#[derive(Debug, Drop)]
pub struct Change {
    pub key: Key,
    pub object: Option<Object>,
}

impl Keyed for Stored {
    ghost key_of = { λ s. s.key };

    fn key(&self) -> &Key {
        &self.key
    }
}
