//! How far the events of a script were taken.
ghost use Rattle.std.specs.Prelude.{◌≡◌, ◌≤◌, ◌+◌, ◌-◌, ◌<◌, ◌^◌, min, length, take, drop};
ghost use Rattle.world.specs.Tapes.{behind, within_piece, IsReady, IsStep, IsPieceStep};

use crate::event::Event;
use scripts::ScriptEvent;

/// The place of the next event.
#[derive(Clone, Copy, Debug)]
pub struct Place {
    /// How many events were taken whole.
    pub index: usize,
    /// How many bytes of the next event were taken, if it is a piece.
    pub offset: usize,
    /// How many connections were opened.
    pub opened: u32,
}

/// What is taken at a place, and the place behind it.
#[derive(Clone, Copy, Debug)]
pub struct Step {
    pub event: Event,
    /// How many bytes were taken of a piece.
    pub note: u16,
    pub place: Place,
}

impl Place {
    // The place behind an event that is taken whole.
    fn behind(self, opened: u32) -> Place
        requires { self.index + 1 < 2 ^ 64 }
        ensures { result ≡ behind self opened }
    {
        Place {
            index: self.index + 1,
            offset: 0,
            opened,
        }
    }

    // The place behind more bytes of a piece.
    fn within_piece(self, count: usize, size: usize) -> Place
        requires next { self.index + 1 < 2 ^ 64 }
        requires sum { self.offset + count < 2 ^ 64 }
        ensures { result ≡ within_piece self count size }
    {
        if size <= self.offset + count {
            return self.behind(self.opened);
        }
        Place {
            index: self.index,
            offset: self.offset + count,
            opened: self.opened,
        }
    }
}

// Puts the rest of the piece into the buffer, as far as there is room.
fn take_piece(place: Place, c: u32, bytes: &[u8], into: &mut [u8]) -> Step
    requires next { place.index + 1 < 2 ^ 64 }
    requires offset { place.offset < length bytes.now }
    requires short { length bytes.now ≤ 4096 }
    ensures { IsPieceStep place c bytes.now (length into.old) into.new result }
{
    let (_, rest) = bytes.split_at(place.offset);
    let count = rest.len().min(into.len());
    let (front, _) = rest.split_at(count);
    into[..count].copy_from_slice(front);
    Step {
        event: Event::Piece(c, count),
        note: count as u16,
        place: place.within_piece(count, bytes.len()),
    }
}

/// Takes the event at the place, of a piece as much as has room in the buffer.
pub fn take_event(place: Place, event: &ScriptEvent, into: &mut [u8]) -> Step
    requires next { place.index + 1 < 2 ^ 64 }
    requires ready { IsReady place event.now }
    ensures { IsStep place event.now (length into.old) into.new result }
{
    match event {
        ScriptEvent::Open => Step {
            event: Event::Opened(place.opened),
            note: 0,
            place: place.behind(place.opened + 1),
        },
        ScriptEvent::Piece(c, bytes) => take_piece(place, *c, bytes.bytes(), into),
        ScriptEvent::Close(c) => Step {
            event: Event::Closed(*c),
            note: 0,
            place: place.behind(place.opened),
        },
    }
}
