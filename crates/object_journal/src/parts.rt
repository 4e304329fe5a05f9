//! The parts of an entry, where they lie in a file.

/// A key.
#[derive(Clone, Copy, Debug)]
pub(crate) struct KeyPart<'a> {
    pub group: &'a str,
    pub resource: &'a str,
    pub namespace: &'a str,
    pub name: &'a str,
}

/// What the entry does to its key.
#[derive(Clone, Copy, Debug)]
pub(crate) enum ChangePart<'a> {
    Put { created: u64, body: &'a [u8] },
    Removal,
}

/// An entry.
#[derive(Clone, Copy, Debug)]
pub(crate) struct EntryPart<'a> {
    pub key: KeyPart<'a>,
    pub revision: u64,
    pub change: ChangePart<'a>,
}
