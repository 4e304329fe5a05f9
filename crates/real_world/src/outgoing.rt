//! The replies of which bytes wait for their sockets.
ghost use Rattle.std.specs.Prelude.{◌≡◌, ◌≤◌, ◌<◌, ◌+◌, drop, length, vec_len, vec_capacity, IfSome, IfOk, OnOk, OnErr};

use crate::connection::Connection;
use basis::Memory;
use minor_version::Blob;
use std::alloc::Global;
use std::io::{self, ErrorKind};

// With more bytes than these waiting for its socket, a connection is sent nothing more.
const WAITING_AT_MOST: usize = 1_048_576;

/// A reply, of which so many bytes were sent.
#[derive(Drop)]
struct Reply {
    connection: u32,
    bytes: Blob,
    sent: usize,
    ghost within: { sent ≤ length bytes },
}

/// Replies in the order in which they were made, and the number of those that room was made for.
#[derive(Drop)]
pub struct Outgoing {
    replies: Vec<Reply>,
    spare: usize,
    ghost room: { vec_len replies + spare ≤ vec_capacity replies },
}

impl Reply {
    fn rest(&self) -> &[u8]
        ensures { result.now ≡ drop self.now.sent self.now.bytes }
    {
        let (_, rest) = self.bytes.bytes().split_at(self.sent);
        rest
    }

    // Sends what the socket takes, and says whether nothing is left.
    fn send_on(&mut self, connection: &mut Connection) -> io::Result<bool>
        ensures { connection.new.number ≡ connection.old.number }
    {
        let len = self.bytes.bytes().len();
        let count = connection.write(self.rest())?;
        self.sent += count;
        Ok(self.sent == len)
    }
}

impl Outgoing {
    /// No reply, and no room. Takes no memory.
    pub fn new(alloc: Global) -> Self
        ensures { result.spare ≡ 0 }
    {
        Outgoing {
            replies: Vec::new(alloc),
            spare: 0,
        }
    }

    /// Makes room for a reply, unless there is some.
    pub fn make_room(&mut self) -> Result<(), Memory>
        ensures ok { OnOk result (1 ≤ self.new.spare) }
        ensures err { OnErr result (self.new.spare ≡ self.old.spare) }
    {
        if self.spare > 0 {
            return Ok(());
        }
        match self.replies.reserve(1) {
            Ok(()) => {
                self.spare = 1;
                Ok(())
            }
            Err(_) => Err(Memory),
        }
    }

    /// Gives back the room for a reply that doesn't wait.
    pub fn drop_room(&mut self)
        requires { 1 ≤ self.old.spare }
        ensures { self.new.spare + 1 ≡ self.old.spare }
    {
        self.spare -= 1;
    }

    // Puts a reply into the room that was made.
    fn keep(&mut self, reply: Reply)
        requires { 1 ≤ self.old.spare }
        ensures { self.new.spare + 1 ≡ self.old.spare }
    {
        self.spare -= 1;
        self.replies.push_reserved(reply);
    }

    /// Sends a reply of the connection in room that was made: what its socket doesn't take waits. It fails where the
    /// socket does, and where too much waits.
    pub fn send(&mut self, connection: &mut Connection, bytes: Blob) -> io::Result<()>
        requires { 1 ≤ self.old.spare }
        ensures spare { self.new.spare + 1 ≡ self.old.spare }
        ensures same { connection.new.number ≡ connection.old.number }
    {
        match self.begin(connection, bytes.bytes()) {
            Ok(sent) if sent < bytes.bytes().len() => {
                self.keep(Reply {
                    connection: connection.number,
                    bytes,
                    sent,
                });
                Ok(())
            }
            Ok(_) => {
                self.drop_room();
                Ok(())
            }
            Err(error) => {
                self.drop_room();
                Err(error)
            }
        }
    }

    // Sends what may be sent at once, and says how much that is. Nothing goes before what waits.
    fn begin(&self, connection: &mut Connection, bytes: &[u8]) -> io::Result<usize>
        ensures same { connection.new.number ≡ connection.old.number }
        ensures bound { IfOk result (λ n. n ≤ length bytes.now) }
    {
        if self.is_full(connection.number) {
            return Err(io::Error::from(ErrorKind::TimedOut));
        }
        if self.waits(connection.number) {
            return Ok(0);
        }
        connection.write(bytes)
    }

    // The place of the first reply of the connection.
    fn first_of(&self, number: u32) -> Option<usize>
        ensures { IfSome result (λ at. at < vec_len self.now.replies) }
    {
        self.replies
            .iter()
            .position(|reply| reply.connection == number)
    }

    /// Whether a reply of the connection waits.
    pub fn waits(&self, number: u32) -> bool {
        self.first_of(number).is_some()
    }

    // Whether the connection has more bytes waiting than is allowed.
    fn is_full(&self, number: u32) -> bool {
        let mut room = WAITING_AT_MOST;
        for reply in &self.replies {
            if reply.connection == number {
                let waiting = reply.rest().len();
                if waiting > room {
                    return true;
                }
                room -= waiting;
            }
        }
        false
    }

    /// Drops the replies of the connection.
    pub fn forget(&mut self, number: u32)
        ensures { self.new.spare ≡ self.old.spare }
    {
        self.replies.retain(|reply| reply.connection != number);
    }

    /// Sends what waits for the connection, as much as its socket takes.
    pub fn flush(&mut self, connection: &mut Connection) -> io::Result<()>
        ensures spare { self.new.spare ≡ self.old.spare }
        ensures same { connection.new.number ≡ connection.old.number }
    {
        for _ in 0..self.replies.len() {
            let Some(at) = self.first_of(connection.number) else {
                return Ok(());
            };
            match self.send_on(at, connection) {
                Ok(true) => {}
                Ok(false) => return Ok(()),
                Err(error) => return Err(error),
            }
        }
        Ok(())
    }

    // Sends on the reply at the place. Says whether nothing of it is left; it is dropped then.
    fn send_on(&mut self, at: usize, connection: &mut Connection) -> io::Result<bool>
        requires { at < vec_len self.old.replies }
        ensures spare { self.new.spare ≡ self.old.spare }
        ensures same { connection.new.number ≡ connection.old.number }
    {
        let is_whole = self.replies[at].send_on(connection)?;
        if is_whole {
            self.replies.remove(at);
        }
        Ok(is_whole)
    }
}
