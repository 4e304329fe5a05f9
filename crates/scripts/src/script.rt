//! A script as a value.
ghost use Rattle.std.specs.Prelude.{◌≡◌, ◌≤◌, ◌+◌, ◌^◌, [], ◌∷◌, ◌++◌, IfOk, OnOk, OnErr};
ghost use Rattle.scripts.specs.Lawful.{IsLawful, MayFollow};
ghost use Rattle.scripts.specs.Weights.{weight_of, weight_of_all};

use crate::notes::Notes;
use basis::{Memory, Sequence};
use minor_version::Blob;
use std::alloc::Global;
use std::marker::Model;

/// What happens at a connection. Connections are numbered from 0, in the order in which they are opened.
#[derive(Debug, Drop)]
pub enum ScriptEvent {
    /// The next connection is opened.
    Open,
    /// These bytes come of the connection.
    Piece(u32, Blob),
    /// The client closes the connection.
    Close(u32),
}

/// What connections of a server bring, in order, seen as the list of its events. Each event may follow those before it:
/// at most 256 connections are open and at most 1,000,000 opened in all, and a piece of 1 to 4,096 bytes and a close are of
/// a connection that is open.
#[derive(Debug, Drop)]
pub struct Script {
    events: Sequence<ScriptEvent>,
    // How many calls take the events at most.
    weight: usize,
    // Room for a note of each of these calls.
    notes: Notes,
}

impl Model for Script {
    ghost use Rattle.std.specs.Prelude.{List};
    ghost use Rattle.scripts.specs.declared.script.ScriptEvent.{ScriptEvent as EventS};

    ghost Value = { List EventS };

    ghost use Rattle.scripts.specs.Weights.{IsWeighed};

    ghost view = { λ s. s.events };

    ghost invariant = { λ s. IsWeighed s.events s.weight s.notes };
}

/// The parts of a script: its events, and room to note each of the calls by which they are taken.
#[derive(Debug, Drop)]
pub struct ScriptParts {
    pub events: Sequence<ScriptEvent>,
    pub notes: Notes,
}

impl ScriptEvent {
    // How many calls take the event at most: one for each byte.
    fn weight(&self) -> usize
        ensures { result ≡ weight_of self.now }
    {
        match self {
            ScriptEvent::Open | ScriptEvent::Close(_) => 1,
            ScriptEvent::Piece(_, bytes) => bytes.bytes().len(),
        }
    }
}

// The sum, where it fits.
fn sum(weight: usize, more: usize) -> Result<usize, Memory>
    ensures { IfOk result (λ n. n ≡ weight + more) }
{
    match weight.checked_add(more) {
        Some(sum) => Ok(sum),
        None => Err(Memory),
    }
}

impl Script {
    /// The script without events. Takes no memory.
    pub fn new() -> Self
        ensures { result ≡ [] }
    {
        Script {
            events: Sequence::new(),
            weight: 0,
            notes: Notes::new(),
        }
    }

    /// Appends an event, which may follow the others. Where memory runs out, the event is dropped and the script stays.
    pub fn push(&mut self, alloc: Global, event: ScriptEvent) -> Result<(), Memory>
        requires { MayFollow self.old event }
        ensures ok { OnOk result (self.new ≡ self.old ++ event ∷ []) }
        ensures err { OnErr result (self.new ≡ self.old) }
    {
        let weight = sum(self.weight, event.weight())?;
        self.notes.make_room(alloc, weight)?;
        self.events.push(alloc, event)?;
        self.weight = weight;
        Ok(())
    }

    /// The events, in order.
    pub fn events(&self) -> &[ScriptEvent]
        ensures value { result.now ≡ self.now }
        ensures lawful { IsLawful self.now }
    {
        self.events.items()
    }

    /// The events, and room to note the calls by which they are taken.
    pub fn into_parts(self) -> ScriptParts
        ensures events { result.events ≡ self }
        ensures lawful { IsLawful self }
        ensures fresh { result.notes.noted ≡ [] }
        ensures room { weight_of_all self ≤ result.notes.room }
    {
        ScriptParts {
            events: self.events,
            notes: self.notes,
        }
    }
}
