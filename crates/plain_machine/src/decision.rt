use crate::answer::Answer;
use http_front::Reply;
use object_state::Change;

/// What becomes of a request: its answer, and its change of the state, if it makes one.
#[derive(Debug, Drop)]
pub(crate) struct Decision {
    pub answer: Answer,
    pub change: Option<Change>,
}

/// What becomes of a request: its reply, and its change of the state, if it makes one.
#[derive(Debug, Drop)]
pub struct Decided {
    pub reply: Reply,
    pub change: Option<Change>,
}
