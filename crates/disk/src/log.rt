use crate::file::File;
use minor_version::Blob;

/// What a call did to its file.
#[derive(Debug, Drop)]
pub enum Change {
    /// Bytes were put at a place.
    Wrote(u64, Blob),
    /// A write at a place, of so many bytes, failed.
    WriteFailed(u64, u64),
    /// The file was cut to a length.
    Cut(u64),
    /// A cut to a length failed.
    CutFailed(u64),
    /// The file was synced.
    Synced,
}

/// A change, its file, and the moment that its call raised the clock to.
#[derive(Debug, Drop)]
pub struct Entry {
    pub moment: u64,
    pub file: File,
    pub change: Change,
}
