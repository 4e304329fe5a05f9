//! The listener on loopback, which serves many connections at once.
ghost use Rattle.std.specs.Prelude.{◌≡◌, ◌≤◌, ◌<◌, ◌+◌, ◌^◌, length, IfOk, IfErr, IfSome, IfNone, OnErr};
ghost use Rattle.std.specs.Bool.{OnTrue};
ghost use Rattle.world.specs.Fronts.{IsNumbered};
ghost use Rattle.real_world.specs.Faults.{IsFaultOfSome};

use crate::fault::WorldFault;
use crate::outgoing::Outgoing;
use crate::table::{OPEN_AT_MOST, Table};
use minor_version::Blob;
use mio::net::TcpListener;
use mio::{Events, Interest, Poll, Token};
use std::alloc::Global;
use std::io::{self, ErrorKind};
use std::net::{IpAddr, Ipv4Addr, Net, SocketAddr};
use std::time::{Clock, Duration, Instant};
use world::Event;

const LISTENING: Token = Token(0);

// After so long at most the silence of the clients is looked at.
const LOOK_SECONDS: u64 = 1;

/// A listening socket and the connections that it took.
#[derive(Drop)]
pub struct Listener {
    // None once all connections were taken.
    socket: Option<TcpListener>,
    // Whether a connection may wait to be taken. Where there is no place for one, whether it does.
    is_ready: bool,
    poll: Poll,
    readiness: Events,
    table: Table,
    // How many connections are taken in all.
    limit: u32,
}

impl Listener {
    /// A listener on the port of loopback, which takes so many connections in all.
    pub fn bind<N: Net>(net: &N, alloc: Global, port: u16, limit: u32) -> Result<Self, WorldFault>
        ensures ok { IfOk result (λ listener. listener.table.opened ≡ 0) }
        ensures err { IfErr result IsFaultOfSome }
    {
        let poll = Poll::new(net)?;
        let Ok(readiness) = Events::with_capacity(alloc, OPEN_AT_MOST + 1) else {
            return Err(WorldFault::Memory);
        };
        let Ok(table) = Table::new(alloc) else {
            return Err(WorldFault::Memory);
        };
        let address = SocketAddr::new(IpAddr::V4(Ipv4Addr::LOCALHOST), port);
        let mut socket = TcpListener::bind(net, address)?;
        poll.registry()
            .register(&mut socket, LISTENING, Interest::READABLE)?;
        Ok(Listener {
            socket: Some(socket),
            is_ready: true,
            poll,
            readiness,
            table,
            limit,
        })
    }

    /// How many connections were opened.
    pub fn opened(&self) -> u32
        ensures { result ≡ self.now.table.opened }
    {
        self.table.opened()
    }

    /// Takes the next event. Waits for the system to tell of a socket while there is none.
    pub fn next(
        &mut self,
        clock: &impl Clock,
        into: &mut [u8],
        outgoing: &mut Outgoing,
    ) -> io::Result<Event>
        ensures numbered { IfOk result
            (λ e. IsNumbered (length into.old) e self.old.table.opened self.new.table.opened) }
        ensures failed { OnErr result (self.new.table.opened ≡ self.old.table.opened) }
        ensures spare { outgoing.new.spare ≡ outgoing.old.spare }
    {
        for _ in 0..u64::MAX {
            match self.step(clock, into, outgoing) {
                Ok(None) => {}
                Ok(Some(event)) => return Ok(event),
                Err(error) => return Err(error),
            }
        }
        Err(io::Error::from(ErrorKind::TimedOut))
    }

    // Takes an event, if there is one, or goes on to where there may be one.
    fn step(
        &mut self,
        clock: &impl Clock,
        into: &mut [u8],
        outgoing: &mut Outgoing,
    ) -> io::Result<Option<Event>>
        ensures some { IfOk result (λ o. IfSome o
            (λ e. IsNumbered (length into.old) e self.old.table.opened self.new.table.opened)) }
        ensures none { IfOk result (λ o. IfNone o (self.new.table.opened ≡ self.old.table.opened)) }
        ensures failed { OnErr result (self.new.table.opened ≡ self.old.table.opened) }
        ensures spare { outgoing.new.spare ≡ outgoing.old.spare }
    {
        let now = Instant::now(clock)?;
        self.table.settle(now, outgoing);
        if self.table.opened() >= self.limit && self.table.is_empty() {
            return Ok(Some(Event::End));
        }
        self.wait(outgoing)?;
        if let Some(event) = self.accept(now)? {
            return Ok(Some(event));
        }
        let is_wanted = self.is_wanted();
        if let Some(event) = self.table.give_up(now, is_wanted, outgoing) {
            return Ok(Some(event));
        }
        if let Some(event) = self.table.take(into) {
            return Ok(Some(event));
        }
        Ok(None)
    }

    // Whether a connection may wait that is to be taken now.
    fn may_accept(&self) -> bool
        ensures { OnTrue result (self.now.table.opened + 1 < 2 ^ 32) }
    {
        self.is_ready && !self.table.is_full() && self.table.opened() < self.limit
    }

    // Whether a connection waits for which there is no place.
    fn is_wanted(&self) -> bool {
        self.is_ready && self.table.is_full() && self.socket.is_some()
    }

    // Takes a connection that waits, where one more may be open and one more is to be taken.
    fn accept(&mut self, now: Instant) -> io::Result<Option<Event>>
        ensures some { IfOk result (λ o. IfSome o
            (λ e. (e ≡ Event.Opened self.old.table.opened) × (self.new.table.opened ≡ self.old.table.opened + 1))) }
        ensures none { IfOk result (λ o. IfNone o (self.new.table.opened ≡ self.old.table.opened)) }
        ensures failed { OnErr result (self.new.table.opened ≡ self.old.table.opened) }
    {
        if !self.may_accept() {
            return Ok(None);
        }
        let Some(socket) = &self.socket else {
            return Ok(None);
        };
        match socket.accept() {
            Ok((stream, _)) => {
                let event = self.table.add(self.poll.registry(), stream, now)?;
                self.ask();
                Ok(Some(event))
            }
            Err(error) => match error.kind() {
                ErrorKind::WouldBlock => {
                    self.is_ready = false;
                    Ok(None)
                }
                ErrorKind::Interrupted | ErrorKind::ConnectionAborted => Ok(None),
                _ => Err(error),
            },
        }
    }

    // Takes no more where all were taken. Where the table is full, the system is to tell anew whether a connection waits.
    fn ask(&mut self)
        ensures { self.new.table ≡ self.old.table }
    {
        if self.table.opened() >= self.limit {
            self.socket = None;
        }
        if self.table.is_full()
            && let Some(socket) = &mut self.socket
        {
            let asked = self
                .poll
                .registry()
                .reregister(socket, LISTENING, Interest::READABLE);
            self.is_ready = asked.is_err();
        }
    }

    // For how long there is nothing to do, unless the system tells of a socket.
    fn leisure(&self, outgoing: &Outgoing) -> Option<Duration> {
        if self.may_accept() || !self.table.is_idle(outgoing) {
            Some(Duration::ZERO)
        } else if self.table.is_empty() {
            None
        } else {
            Some(Duration::from_secs(LOOK_SECONDS))
        }
    }

    // Hears what the system tells of sockets. Where there is nothing to do, it waits for that.
    fn wait(&mut self, outgoing: &Outgoing) -> io::Result<()>
        ensures { self.new.table.opened ≡ self.old.table.opened }
    {
        let leisure = self.leisure(outgoing);
        self.poll.poll(&mut self.readiness, leisure)?;
        self.is_ready = self.is_ready
            || self
                .readiness
                .iter()
                .any(|readiness| readiness.token() == LISTENING);
        self.table.note_all(&self.readiness);
        Ok(())
    }

    /// Sends a reply of a connection in room that was made, as the last of the connection or not.
    pub fn send(
        &mut self,
        c: u32,
        bytes: Blob,
        last: bool,
        outgoing: &mut Outgoing,
    ) -> io::Result<()>
        requires { 1 ≤ outgoing.old.spare }
        ensures opened { self.new.table.opened ≡ self.old.table.opened }
        ensures spare { outgoing.new.spare + 1 ≡ outgoing.old.spare }
    {
        self.table.send(c, bytes, last, outgoing)
    }
}
