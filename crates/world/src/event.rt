/// What a front tells of its connections.
#[derive(Clone, Copy, Debug, PartialEq, Eq)]
pub enum Event {
    /// The connection with this number was opened.
    Opened(u32),
    /// So many bytes came of the connection. They stand at the front of the buffer.
    Piece(u32, usize),
    /// The client closed the connection.
    Closed(u32),
    /// No connection will bring anything more.
    End,
}
