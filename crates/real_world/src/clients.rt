//! What brings the connections of a world.
ghost use Rattle.std.specs.Prelude.{◌≡◌, ◌≤◌, ◌<◌, ◌+◌, length, IfOk, OnErr, IsErr};
ghost use Rattle.real_world.specs.Opened.{opened_by};
ghost use Rattle.real_world.specs.Worlds.{TakesOfScript};
ghost use Rattle.world.specs.Fronts.{IsNumbered};

use crate::listener::Listener;
use crate::outgoing::Outgoing;
use crate::script::print_reply;
use minor_version::Blob;
use std::io::{self, ErrorKind};
use std::time::Clock;
use world::{Event, Tape};

/// What brings connections.
#[derive(Drop)]
pub enum Clients {
    /// Nothing: each call fails.
    Nobody,
    /// The events of a script. Replies are printed.
    Script(Tape),
    /// A listener.
    Listening(Listener),
}

fn nobody() -> io::Error {
    io::Error::from(ErrorKind::NotConnected)
}

impl Clients {
    /// How many connections were opened.
    pub fn opened(&self) -> u32
        ensures { result ≡ opened_by self.now }
    {
        match self {
            Clients::Nobody => 0,
            Clients::Script(tape) => tape.opened(),
            Clients::Listening(listener) => listener.opened(),
        }
    }

    /// Takes the next event.
    pub fn next(
        &mut self,
        rt: &impl Clock,
        into: &mut [u8],
        outgoing: &mut Outgoing,
    ) -> io::Result<Event>
        requires { 1 ≤ length into.old }
        ensures numbered { IfOk result
            (λ e. IsNumbered (length into.old) e (opened_by self.old) (opened_by self.new)) }
        ensures failed { OnErr result (opened_by self.new ≡ opened_by self.old) }
        ensures spare { outgoing.new.spare ≡ outgoing.old.spare }
        ensures missing { self.old ≡ Clients.Nobody → IsErr result × (self.new ≡ Clients.Nobody) }
        ensures script { IfOk result (λ e. TakesOfScript (length into.old) e into.new self.old self.new) }
    {
        match self {
            Clients::Nobody => Err(nobody()),
            Clients::Script(tape) => Ok(tape.next(into)),
            Clients::Listening(listener) => listener.next(rt, into, outgoing),
        }
    }

    /// Sends a reply in room that was made.
    pub fn send(
        &mut self,
        rt: &impl Print,
        c: u32,
        bytes: Blob,
        last: bool,
        outgoing: &mut Outgoing,
    ) -> io::Result<()>
        requires { 1 ≤ outgoing.old.spare }
        ensures opened { opened_by self.new ≡ opened_by self.old }
        ensures spare { outgoing.new.spare + 1 ≡ outgoing.old.spare }
    {
        match self {
            Clients::Listening(listener) => listener.send(c, bytes, last, outgoing),
            Clients::Script(_) => {
                outgoing.drop_room();
                print_reply(rt, c, bytes.bytes())
            }
            Clients::Nobody => {
                outgoing.drop_room();
                Err(nobody())
            }
        }
    }
}
