use minor_version::Blob;

/// The method of a request, by its exact word.
#[derive(Clone, Copy, Debug, PartialEq, Eq)]
pub enum Verb {
    Get,
    Post,
    Put,
    Delete,
    Patch,
    Head,
    /// Any other word.
    Other,
}

/// What a head says of the body's length.
#[derive(Clone, Copy, Debug, PartialEq, Eq)]
pub enum Length {
    /// The number of its `Content-Length`, 0 without one.
    Given(u64),
    /// There is a `Transfer-Encoding`.
    Chunked,
}

/// One request of a stream.
#[derive(Debug, Drop)]
pub struct Request {
    pub verb: Verb,
    /// The target up to its first `?`.
    pub path: Blob,
    /// The target behind its first `?`.
    pub query: Blob,
    pub length: Length,
    /// The body; empty where its length is `Chunked` or above 65,536.
    pub body: Blob,
    /// Whether the connection closes after the reply.
    pub last: bool,
}

/// What the front of a stream is.
#[derive(Debug, Drop)]
pub enum Taken {
    /// The head or the body isn't complete.
    More,
    /// No request can be taken.
    Bad,
    /// A request, and the number of bytes that it takes.
    Whole(Request, usize),
}

/// What is known of a stream that has no item yet, so that it needn't be looked at again.
#[derive(Clone, Copy, Debug, PartialEq, Eq)]
pub enum Known {
    /// No head ends in so many first bytes.
    NoHead {
        looked: usize,
        /// How many line feeds they have.
        lines: usize,
    },
    /// The bytes up to the end of the first head, and those of its body, are so many.
    Size(usize),
}

/// What the front of a stream is, with what is known of it while more bytes are needed.
#[derive(Debug, Drop)]
pub enum Next {
    /// The head or the body isn't complete.
    Waits(Known),
    /// No request can be taken.
    Bad,
    /// A request, and the number of bytes that it takes.
    Whole(Request, usize),
}
