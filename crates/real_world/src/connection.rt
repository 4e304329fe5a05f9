//! A connection of the listener.
ghost use Rattle.std.specs.Prelude.{◌≡◌, ◌≤◌, length, IfOk, IfSome};
ghost use Rattle.real_world.specs.Listening.{IsOf};

use mio::event::Event as Readiness;
use mio::net::TcpStream;
use mio::{Interest, Registry, Token};
use std::io::{self, ErrorKind, Read, Write};
use std::net::Shutdown;
use std::time::Instant;
use world::Event;

// How many bytes of a connection that was shut are read and dropped, before its socket is closed all the same.
const DROPPED_AT_MOST: usize = 1_048_576;

// For so many seconds nothing may move on a connection: as long as an API server of Kubernetes keeps an idle one.
const SILENT_SECONDS: u64 = 90;

/// For so many seconds nothing may move on a connection that nobody needs: all was sent, or another client wants its place.
pub const LINGER_SECONDS: u64 = 2;

/// How far a connection has come.
#[derive(Clone, Copy, Debug, PartialEq, Eq)]
enum Stage {
    // What the client sends is told.
    Open,
    // The server sends nothing more than what waits. What the client sends is dropped.
    Shut,
    // The server has sent all, and told the client so. What the client sends is dropped.
    Finished,
    // The client sends nothing more. What waits is sent.
    Heard,
}

/// A socket, and what is known of it. A socket that was found not to be ready is tried again only once the system tells
/// of it.
#[derive(Drop)]
pub struct Connection {
    pub number: u32,
    stream: TcpStream,
    readable: bool,
    writable: bool,
    stage: Stage,
    dropped: usize,
    // Whether something moved since the time was noted last.
    has_moved: bool,
    silent_since: Instant,
}

impl Connection {
    /// A connection that was opened at this time.
    pub fn new(number: u32, stream: TcpStream, now: Instant) -> Self
        ensures { result.number ≡ number }
    {
        // Small replies aren't held back; where the system refuses that, they are late.
        let _ = stream.set_nodelay(true);
        Connection {
            number,
            stream,
            readable: true,
            writable: true,
            stage: Stage::Open,
            dropped: 0,
            has_moved: false,
            silent_since: now,
        }
    }

    /// Has the system tell of the socket under this token.
    pub fn register(&mut self, registry: &Registry, token: Token) -> io::Result<()>
        ensures { self.new.number ≡ self.old.number }
    {
        registry.register(
            &mut self.stream,
            token,
            Interest::READABLE | Interest::WRITABLE,
        )
    }

    /// Notes what the system tells of the socket.
    pub fn note(&mut self, readiness: &Readiness)
        ensures { self.new.number ≡ self.old.number }
    {
        let failed = readiness.is_error();
        if failed || readiness.is_readable() || readiness.is_read_closed() {
            self.readable = true;
        }
        if failed || readiness.is_writable() || readiness.is_write_closed() {
            self.writable = true;
        }
    }

    /// Whether a read may bring something.
    pub fn is_readable(&self) -> bool {
        self.readable && self.stage != Stage::Heard
    }

    /// Whether a write may take something.
    pub fn is_writable(&self) -> bool {
        self.writable
    }

    /// Whether the client sends nothing more.
    pub fn is_heard(&self) -> bool {
        self.stage == Stage::Heard
    }

    /// Notes that a write failed. The next read tells how the connection ended.
    pub fn fail(&mut self)
        ensures { self.new.number ≡ self.old.number }
    {
        self.readable = true;
    }

    /// Notes the time, where something moved since it was noted last.
    pub fn note_time(&mut self, now: Instant)
        ensures { self.new.number ≡ self.old.number }
    {
        if self.has_moved {
            self.has_moved = false;
            self.silent_since = now;
        }
    }

    /// For how many seconds nothing has moved.
    pub fn silence(&self, now: Instant) -> u64 {
        now.duration_since(self.silent_since).as_secs()
    }

    /// Whether nothing has moved for longer than is waited for.
    pub fn is_overdue(&self, now: Instant) -> bool {
        let patience = match self.stage {
            Stage::Finished => LINGER_SECONDS,
            _ => SILENT_SECONDS,
        };
        self.silence(now) >= patience
    }

    /// Sends nothing more than what waits.
    pub fn shut(&mut self)
        ensures { self.new.number ≡ self.old.number }
    {
        if self.stage == Stage::Open {
            self.stage = Stage::Shut;
        }
    }

    /// Tells the client, once nothing waits, that the server sends nothing more.
    pub fn finish(&mut self)
        ensures { self.new.number ≡ self.old.number }
    {
        if self.stage == Stage::Shut {
            // A socket that has failed is found so by its next read.
            let _ = self.stream.shutdown(Shutdown::Write);
            self.stage = Stage::Finished;
            self.readable = true;
            self.has_moved = true;
        }
    }

    /// Reads once. What is read is told, unless the connection was shut.
    pub fn read(&mut self, into: &mut [u8]) -> Option<Event>
        ensures same { self.new.number ≡ self.old.number }
        ensures event { IfSome result (IsOf self.old.number (length into.old)) }
    {
        match self.stream.read(into) {
            Ok(0) => self.hear_end(),
            Ok(count) => self.hear(count),
            Err(error) => match error.kind() {
                ErrorKind::WouldBlock => {
                    self.readable = false;
                    None
                }
                ErrorKind::Interrupted => None,
                _ => self.hear_end(),
            },
        }
    }

    fn hear(&mut self, count: usize) -> Option<Event>
        requires { 1 ≤ count }
        ensures same { self.new.number ≡ self.old.number }
        ensures event { IfSome result (IsOf self.old.number count) }
    {
        self.has_moved = true;
        if self.stage == Stage::Open {
            return Some(Event::Piece(self.number, count));
        }
        self.dropped = self.dropped.saturating_add(count);
        if self.dropped > DROPPED_AT_MOST {
            self.stage = Stage::Heard;
        }
        None
    }

    /// Nothing more comes of the client. That is told, unless the connection was shut.
    pub fn hear_end(&mut self) -> Option<Event>
        ensures same { self.new.number ≡ self.old.number }
        ensures event { IfSome result (λ e. e ≡ Event.Closed self.old.number) }
    {
        let is_told = self.stage == Stage::Open;
        self.stage = Stage::Heard;
        is_told.then_some(Event::Closed(self.number))
    }

    /// Writes once, and says how many bytes the socket took: none where it is full.
    pub fn write(&mut self, bytes: &[u8]) -> io::Result<usize>
        ensures same { self.new.number ≡ self.old.number }
        ensures bound { IfOk result (λ n. n ≤ length bytes.now) }
    {
        match self.stream.write(bytes) {
            Ok(0) => Err(io::Error::from(ErrorKind::WriteZero)),
            Ok(count) => {
                self.has_moved = true;
                Ok(count)
            }
            Err(error) => match error.kind() {
                ErrorKind::WouldBlock => {
                    self.writable = false;
                    Ok(0)
                }
                ErrorKind::Interrupted => Ok(0),
                _ => Err(error),
            },
        }
    }
}
