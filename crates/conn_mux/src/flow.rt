//! The stream of a connection while its items are taken.
ghost use Rattle.std.specs.Prelude.{◌≡◌, ◌↔◌, IfOk, OnOk, OnErr, IsTrue, IfSome, option_map};
ghost use Rattle.conn_mux.specs.Items.{item_of};
ghost use Rattle.conn_mux.specs.Flows.{ends_flow, flow_with, Gives};

use crate::buffer::Buffer;
use crate::incoming::Incoming;
use basis::Memory;
use std::alloc::Global;

/// What is left of a stream.
#[derive(Debug, Drop)]
pub enum Flow {
    /// The bytes behind the items that were taken.
    Going(Buffer),
    /// An item ended the splitting.
    Ended,
}

// Whether nothing behind it counts.
fn ends_flow(taken: &Option<Incoming>) -> bool
    ensures { result ≡ ends_flow taken.now }
{
    match taken {
        Some(Incoming::Whole(request)) => request.last,
        Some(Incoming::Bad) => true,
        None => false,
    }
}

impl Flow {
    /// Puts the bytes behind the others.
    pub fn append(&mut self, bytes: &[u8]) -> Result<(), Memory>
        ensures ok { OnOk result (self.new ≡ flow_with self.old bytes.now) }
        ensures err { OnErr result (self.new ≡ self.old) }
    {
        match self {
            Flow::Going(buffer) => buffer.append(bytes),
            Flow::Ended => Ok(()),
        }
    }

    /// Takes the next item.
    pub fn take(&mut self, alloc: Global) -> Result<Option<Incoming>, Memory>
        ensures ok { IfOk result (λ taken. Gives self.old taken self.new) }
        ensures err { OnErr result (self.new ≡ self.old) }
    {
        match self {
            Flow::Going(buffer) => {
                let taken = buffer.take(alloc)?;
                if ends_flow(&taken) {
                    *self = Flow::Ended;
                }
                Ok(taken)
            }
            Flow::Ended => Ok(None),
        }
    }
}
