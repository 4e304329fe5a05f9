//! The connections that events leave open.
ghost use Rattle.std.specs.Prelude.{◌≡◌, ◌↔◌, ◌+◌, ◌<◌, ◌≤◌, ◌^◌, [], ◌∷◌, ◌++◌, List, IsTrue, IfOk, length};
ghost use Rattle.scripts.specs.Lawful.{MayFollow};
ghost use Rattle.scripts.specs.Standing.{IsStanding};
ghost use Rattle.scripts.specs.declared.script.ScriptEvent.{ScriptEvent as EventS};

use crate::script::ScriptEvent;
use basis::Memory;
use std::alloc::Global;
use std::collections::BTreeSet;

/// How many connections may be open.
const MOST_OPEN: usize = 256;

/// How many connections may be opened in all.
const MOST_OPENED: u32 = 1_000_000;

/// How many bytes a piece may have.
const LONGEST_PIECE: usize = 4_096;

/// How many connections were opened, and which of them are open.
#[derive(Drop)]
pub struct Connections {
    opened: u32,
    // Those that are open.
    current: BTreeSet<u32>,
}

impl Connections {
    /// No connection was opened. Takes no memory.
    pub fn new(alloc: Global) -> Self
        ensures { IsStanding result [] }
    {
        Connections {
            opened: 0,
            current: BTreeSet::new(alloc),
        }
    }

    // Whether the connection is open.
    fn is_open(&self, c: u32) -> bool
        ensures { (events : List EventS) → IsStanding self.now events
            → IsTrue result ↔ MayFollow events (ScriptEvent.Close c) }
    {
        self.current.contains(&c)
    }

    // Whether one more may be opened.
    fn may_open(&self) -> bool
        ensures { (events : List EventS) → IsStanding self.now events
            → IsTrue result ↔ MayFollow events ScriptEvent.Open }
    {
        self.current.len() < MOST_OPEN && self.opened < MOST_OPENED
    }

    /// Whether the event may follow those that left these connections open.
    pub fn allow(&self, event: &ScriptEvent) -> bool
        ensures { (events : List EventS) → IsStanding self.now events
            → IsTrue result ↔ MayFollow events event.now }
    {
        match event {
            ScriptEvent::Open => self.may_open(),
            ScriptEvent::Piece(c, bytes) => {
                let length = bytes.bytes().len();
                self.is_open(*c) && 0 < length && length <= LONGEST_PIECE
            }
            ScriptEvent::Close(c) => self.is_open(*c),
        }
    }

    // One more is open.
    fn open_next(mut self) -> Result<Self, Memory>
        requires { self.opened + 1 < 2 ^ 32 }
        ensures { IfOk result (λ after. (events : List EventS) → IsStanding self events
            → MayFollow events ScriptEvent.Open
            → IsStanding after (events ++ ScriptEvent.Open ∷ [])) }
    {
        self.current.insert(self.opened)?;
        self.opened += 1;
        Ok(self)
    }

    // The connection isn't open any more.
    fn close(mut self, c: u32) -> Self
        ensures { (events : List EventS) → IsStanding self events
            → MayFollow events (ScriptEvent.Close c)
            → IsStanding result (events ++ ScriptEvent.Close c ∷ []) }
    {
        self.current.remove(&c);
        self
    }

    /// The connections behind one event more, which may follow the others.
    pub fn behind(self, event: &ScriptEvent) -> Result<Self, Memory>
        requires { self.opened ≤ 1000000 }
        ensures { IfOk result (λ after. (events : List EventS) → IsStanding self events
            → MayFollow events event.now
            → IsStanding after (events ++ event.now ∷ [])) }
    {
        match event {
            ScriptEvent::Open => self.open_next(),
            ScriptEvent::Piece(_, _) => Ok(self),
            ScriptEvent::Close(c) => Ok(self.close(*c)),
        }
    }
}
