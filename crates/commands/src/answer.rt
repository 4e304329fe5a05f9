//! What the program answers: a status, and the text that is written with it.
ghost use Rattle.std.specs.Prelude.{◌≡◌, string_bytes};

use crate::status::Status;

/// A status, and the text that is written with it.
#[derive(Debug, Drop)]
pub struct Answer {
    pub status: Status,
    pub text: String,
}

impl Answer {
    /// The work was done, and this is what it makes.
    pub fn done(text: String) -> Answer
        ensures status { result.status ≡ Status.Ok }
        ensures text { string_bytes result.text ≡ string_bytes text }
    {
        Answer {
            status: Status::Ok,
            text,
        }
    }

    /// An option's value is refused, and this says why.
    pub fn refused_option(text: String) -> Answer
        ensures status { result.status ≡ Status.Flags }
        ensures text { string_bytes result.text ≡ string_bytes text }
    {
        Answer {
            status: Status::Flags,
            text,
        }
    }

    /// The history is refused, and this says why.
    pub fn refused_history(text: String) -> Answer
        ensures status { result.status ≡ Status.History }
        ensures text { string_bytes result.text ≡ string_bytes text }
    {
        Answer {
            status: Status::History,
            text,
        }
    }
}
