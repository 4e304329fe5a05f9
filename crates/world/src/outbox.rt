//! The sends of a front in memory.
ghost use Rattle.std.specs.Prelude.{◌≡◌, ◌≤◌, ◌<◌, ◌+◌, ◌-◌, ◌^◌, [], ◌∷◌, ◌++◌, map, length, OnOk, OnErr};
ghost use Rattle.world.specs.Outboxes.{sent_of};

use crate::sent::Sent;
use basis::Memory;
use std::alloc::Global;
use std::marker::Model;

/// The replies that were sent, and the number of those that room was made for.
#[derive(Debug, Drop)]
pub struct Outbox {
    sends: Vec<Sent>,
    spare: usize,
}

impl Model for Outbox {
    ghost use Rattle.std.specs.Prelude.{◌≤◌, ◌+◌, map, vec_len, vec_capacity};
    ghost use Rattle.world.specs.Outboxes.{Replies, sent_of};

    ghost Value = { Replies };

    ghost view = { λ o. record { sends = map sent_of o.sends.items; spare = o.spare } };

    ghost invariant = { λ o. vec_len o.sends + o.spare ≤ vec_capacity o.sends };
}

impl Outbox {
    /// Nothing was sent, and no room was made. Takes no memory.
    pub fn new(alloc: Global) -> Outbox
        ensures { result ≡ record { sends = []; spare = 0 } }
    {
        Outbox {
            sends: Vec::new(alloc),
            spare: 0,
        }
    }

    /// The replies that were sent.
    pub fn sends(&self) -> &[Sent]
        ensures { map sent_of result.now ≡ self.now.sends }
    {
        self.sends.as_slice()
    }

    /// Makes room for a send, unless there is some.
    pub fn room(&mut self) -> Result<(), Memory>
        ensures ok { OnOk result (1 ≤ self.new.spare) }
        ensures err { OnErr result (self.new.spare ≡ self.old.spare) }
        ensures sends { self.new.sends ≡ self.old.sends }
    {
        if self.spare > 0 {
            return Ok(());
        }
        match self.sends.reserve(1) {
            Ok(()) => {
                self.spare = 1;
                Ok(())
            }
            Err(_) => Err(Memory),
        }
    }

    /// Puts a send into the room that was made.
    pub fn put(&mut self, sent: Sent)
        requires { 1 ≤ self.old.spare }
        ensures sends { self.new.sends ≡ self.old.sends ++ sent_of sent ∷ [] }
        ensures spare { self.new.spare + 1 ≡ self.old.spare }
        ensures count { length self.new.sends < 2 ^ 64 }
    {
        self.spare -= 1;
        let _put = self.sends.push(sent);
        let _count = self.sends.len();
    }
}
