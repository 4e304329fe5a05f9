use http_front::Request;

/// What is taken of a connection's stream.
#[derive(Debug, Drop)]
pub enum Incoming {
    /// A request, with its whole body.
    Whole(Request),
    /// No request can be taken. Nothing of the connection counts any more.
    Bad,
}
