//! The server of the cases: it sends each piece back. A piece that begins with an exclamation mark is the last of its
//! connection.
ghost use Rattle.std.specs.Prelude.{◌<◌};

use minor_version::Blob;
use std::io::{self, ErrorKind};
use world::{Event, Front};

/// More events than a case needs.
const MOST_EVENTS: u16 = 1_000;

/// How many bytes of a piece are taken at once.
const ROOM: usize = 16;

fn shown(bytes: &[u8]) -> &str {
    str::from_utf8(bytes).unwrap_or("not UTF-8").trim_end()
}

fn memory() -> io::Error {
    io::Error::from(ErrorKind::OutOfMemory)
}

fn send_back<W: Front>(rt: &HostRuntime, world: &mut W, c: u32, bytes: &[u8]) -> io::Result<()>
    requires { c < (W.beside world.old).opened }
{
    let is_last = bytes.starts_with(b"!");
    let Ok(reply) = Blob::copy(rt.alloc(), bytes) else {
        return Err(memory());
    };
    let Ok(()) = world.room() else {
        return Err(memory());
    };
    if world.send(c, reply, is_last).is_err() {
        println!(rt; "unsent {c}")?;
    }
    Ok(())
}

/// Takes an event, and prints it. False at the end, and where the front fails.
pub fn serve_one<W: Front>(rt: &HostRuntime, world: &mut W) -> io::Result<bool> {
    let mut buffer = [0; ROOM];
    match world.next(&mut buffer) {
        Ok(Event::Opened(c)) => println!(rt; "opened {c}")?,
        Ok(Event::Piece(c, count)) => {
            let piece = &buffer[..count];
            println!(rt; "piece {c} {count} [{}]", shown(piece))?;
            send_back(rt, world, c, piece)?;
        }
        Ok(Event::Closed(c)) => println!(rt; "closed {c}")?,
        Ok(Event::End) => {
            println!(rt; "end")?;
            return Ok(false);
        }
        Err(_) => {
            println!(rt; "front fault")?;
            return Ok(false);
        }
    }
    Ok(true)
}

/// Takes events to the end.
pub fn serve<W: Front>(rt: &HostRuntime, world: &mut W) -> io::Result<()> {
    for _ in 0..MOST_EVENTS {
        match serve_one(rt, world) {
            Ok(true) => {}
            Ok(false) => return Ok(()),
            Err(error) => return Err(error),
        }
    }
    Ok(())
}
