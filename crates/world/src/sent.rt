use minor_version::Blob;

/// A reply that was sent.
#[derive(Debug, Drop)]
pub struct Sent {
    /// The disk's clock when the send returned.
    pub at: u64,
    /// The number of events that were taken when the send was made.
    pub seen: u64,
    /// The connection.
    pub c: u32,
    /// The bytes.
    pub bytes: Blob,
    /// Whether it was the last of its connection.
    pub last: bool,
    /// Whether it went.
    pub went: bool,
}
