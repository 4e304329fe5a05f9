//! The connections of the listener that are open.
ghost use Rattle.std.specs.Prelude.{◌≡◌, ◌≤◌, ◌<◌, ◌+◌, ◌^◌, length, vec_len, IfOk, IfSome, OnErr};
ghost use Rattle.real_world.specs.Listening.{AreBelow, IsBelow};

use crate::connection::{Connection, LINGER_SECONDS};
use crate::outgoing::Outgoing;
use basis::Memory;
use minor_version::Blob;
use mio::event::Event as Readiness;
use mio::net::TcpStream;
use mio::{Events, Registry, Token};
use std::alloc::Global;
use std::io::{self, ErrorKind};
use std::time::Instant;
use world::Event;

/// How many connections are open at most.
pub const OPEN_AT_MOST: usize = 256;

/// The connections that are open, and the number of those that were opened so far.
#[derive(Drop)]
pub struct Table {
    open: Vec<Connection>,
    opened: u32,
    // The place from which the next ready connection is looked for, so that each has its turn.
    turn: usize,
    ghost numbered: { AreBelow opened open.items },
}

// The token of a connection. The listening socket has the token 0.
fn token_of(number: u32) -> Token {
    Token(number as usize + 1)
}

impl Table {
    /// No connection.
    pub fn new(alloc: Global) -> Result<Self, Memory>
        ensures { IfOk result (λ table. table.opened ≡ 0) }
    {
        match Vec::with_capacity(alloc, OPEN_AT_MOST) {
            Ok(open) => Ok(Table {
                open,
                opened: 0,
                turn: 0,
            }),
            Err(_) => Err(Memory),
        }
    }

    /// How many connections were opened.
    pub fn opened(&self) -> u32
        ensures { result ≡ self.now.opened }
    {
        self.opened
    }

    /// Whether none is open.
    pub fn is_empty(&self) -> bool {
        self.open.is_empty()
    }

    /// Whether no more may be open.
    pub fn is_full(&self) -> bool {
        self.open.len() >= OPEN_AT_MOST
    }

    /// Adds a connection that was opened at this time.
    pub fn add(&mut self, registry: &Registry, stream: TcpStream, now: Instant) -> io::Result<Event>
        requires { self.old.opened + 1 < 2 ^ 32 }
        ensures ok { IfOk result (λ e. (e ≡ Event.Opened self.old.opened) × (self.new.opened ≡ self.old.opened + 1)) }
        ensures err { OnErr result (self.new.opened ≡ self.old.opened) }
    {
        let number = self.opened;
        let mut connection = Connection::new(number, stream, now);
        connection.register(registry, token_of(number))?;
        match self.open.push(connection) {
            Ok(()) => {
                self.opened += 1;
                Ok(Event::Opened(number))
            }
            Err(_) => Err(io::Error::from(ErrorKind::OutOfMemory)),
        }
    }

    // The place of the connection of this number.
    fn place_of(&self, number: u32) -> Option<usize>
        ensures { IfSome result (λ at. at < vec_len self.now.open) }
    {
        self.open
            .iter()
            .position(|connection| connection.number == number)
    }

    /// Notes what the system tells of sockets.
    pub fn note_all(&mut self, events: &Events)
        ensures { self.new.opened ≡ self.old.opened }
    {
        for readiness in events.iter() {
            self.note(readiness);
        }
    }

    fn note(&mut self, readiness: &Readiness)
        ensures { self.new.opened ≡ self.old.opened }
    {
        let token = readiness.token();
        let place = self
            .open
            .iter()
            .position(|connection| token_of(connection.number) == token);
        if let Some(at) = place {
            self.open[at].note(readiness);
        }
    }

    // The place of the next connection that may be read.
    fn next_readable(&self) -> Option<usize>
        ensures { IfSome result (λ at. at < vec_len self.now.open) }
    {
        let turn = self.turn.min(self.open.len());
        let later = self.open[turn..]
            .iter()
            .position(|connection| connection.is_readable());
        match later {
            Some(at) => Some(turn + at),
            None => self
                .open
                .iter()
                .position(|connection| connection.is_readable()),
        }
    }

    /// Takes the next event of the connections that are ready.
    pub fn take(&mut self, into: &mut [u8]) -> Option<Event>
        ensures opened { self.new.opened ≡ self.old.opened }
        ensures event { IfSome result (IsBelow self.old.opened (length into.old)) }
    {
        let at = self.next_readable()?;
        self.turn = at + 1;
        self.open[at].read(into)
    }

    /// Sends a reply of a connection in room that was made. After the last, and where it fails, nothing more is sent.
    pub fn send(
        &mut self,
        number: u32,
        bytes: Blob,
        last: bool,
        outgoing: &mut Outgoing,
    ) -> io::Result<()>
        requires { 1 ≤ outgoing.old.spare }
        ensures opened { self.new.opened ≡ self.old.opened }
        ensures spare { outgoing.new.spare + 1 ≡ outgoing.old.spare }
    {
        let Some(at) = self.place_of(number) else {
            outgoing.drop_room();
            return Err(io::Error::from(ErrorKind::NotConnected));
        };
        let sent = outgoing.send(&mut self.open[at], bytes);
        if last || sent.is_err() {
            self.open[at].shut();
        }
        sent
    }

    /// Notes the time at what moved, sends what waits, as far as the sockets take it, and drops the connections that are
    /// done with.
    pub fn settle(&mut self, now: Instant, outgoing: &mut Outgoing)
        ensures opened { self.new.opened ≡ self.old.opened }
        ensures spare { outgoing.new.spare ≡ outgoing.old.spare }
    {
        for at in 0..self.open.len() {
            settle_one(&mut self.open[at], now, outgoing);
        }
        self.open.retain(|connection| !connection.is_heard() || outgoing.waits(connection.number));
    }

    /// Whether nothing can be done before the system tells of a socket.
    pub fn is_idle(&self, outgoing: &Outgoing) -> bool {
        self.open
            .iter()
            .all(|connection| is_still(connection, outgoing))
    }

    // The place of a connection on which nothing has moved for longer than is waited for.
    fn overdue(&self, now: Instant, outgoing: &Outgoing) -> Option<usize>
        ensures { IfSome result (λ at. at < vec_len self.now.open) }
    {
        self.open.iter().position(|connection| connection.is_overdue(now)
            && is_still(connection, outgoing))
    }

    // For how many seconds nothing has moved on the connection that is silent longest.
    fn longest_silence(&self, now: Instant) -> Option<u64> {
        self.open
            .iter()
            .map(|connection| connection.silence(now))
            .max()
    }

    // The place of that connection, where another client may have it.
    fn longest_silent(&self, now: Instant, outgoing: &Outgoing) -> Option<usize>
        ensures { IfSome result (λ at. at < vec_len self.now.open) }
    {
        let longest = self.longest_silence(now)?;
        if longest < LINGER_SECONDS {
            return None;
        }
        self.open.iter().position(|connection| {
            connection.silence(now) == longest && is_still(connection, outgoing)
        })
    }

    /// Gives up a connection of which the client was silent for too long, and what waits for it. Where a place is wanted
    /// and there is none such, it is the one that is silent longest.
    pub fn give_up(
        &mut self,
        now: Instant,
        is_wanted: bool,
        outgoing: &mut Outgoing,
    ) -> Option<Event>
        ensures opened { self.new.opened ≡ self.old.opened }
        ensures event { IfSome result (IsBelow self.old.opened 0) }
        ensures spare { outgoing.new.spare ≡ outgoing.old.spare }
    {
        let at = match self.overdue(now, outgoing) {
            None if is_wanted => self.longest_silent(now, outgoing)?,
            overdue => overdue?,
        };
        outgoing.forget(self.open[at].number);
        self.open[at].hear_end()
    }
}

// Whether nothing can be done for the connection before the system tells of its socket.
fn is_still(connection: &Connection, outgoing: &Outgoing) -> bool {
    let waits = outgoing.waits(connection.number);
    // One that is done with is dropped first.
    let is_done = connection.is_heard() && !waits;
    !is_done && !connection.is_readable() && !(connection.is_writable() && waits)
}

// Sends what waits for the connection, as far as its socket takes it. Where the socket fails, what waits is dropped.
fn settle_one(connection: &mut Connection, now: Instant, outgoing: &mut Outgoing)
    ensures same { connection.new.number ≡ connection.old.number }
    ensures spare { outgoing.new.spare ≡ outgoing.old.spare }
{
    if connection.is_writable() && outgoing.flush(connection).is_err() {
        outgoing.forget(connection.number);
        connection.fail();
    }
    if !outgoing.waits(connection.number) {
        connection.finish();
    }
    connection.note_time(now);
}
