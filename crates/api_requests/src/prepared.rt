ghost use Rattle.std.specs.Prelude.{◌≡◌, is_some};

use http_front::Reply;
use object_state::Change;
use object_store::Ready;

/// A change of the state with its entry of the journal.
#[derive(Debug, Drop)]
pub(crate) struct Write {
    pub change: Change,
    pub ready: Ready,
}

/// A request whose reply is made, and whose change of the state can be stored without more memory. One that is dropped changes
/// nothing.
#[derive(Debug, Drop)]
pub struct Prepared {
    pub(crate) reply: Reply,
    pub(crate) write: Option<Write>,
}

impl Prepared {
    /// The reply.
    pub fn reply(&self) -> &Reply
        ensures { result.now ≡ self.now.reply }
    {
        &self.reply
    }

    /// Whether the request changes the state.
    pub fn writes(&self) -> bool
        ensures { result ≡ is_some self.now.write }
    {
        self.write.is_some()
    }
}
