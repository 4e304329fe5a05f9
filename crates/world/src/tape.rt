//! The events of a script, which a front in memory takes in turn.
ghost use Rattle.std.specs.Prelude.{◌≡◌, ◌≤◌, ◌<◌, ◌^◌, [], length, true};
ghost use Rattle.world.specs.Events.{front_event};
ghost use Rattle.world.specs.Fronts.{IsNumbered};
ghost use Rattle.world.specs.Rules.{IsLawful};
ghost use Rattle.world.specs.Tapes.{told, TakesNext};

use crate::event::Event;
use crate::place::{Place, take_event};
use basis::Sequence;
use scripts::{Notes, Script, ScriptEvent};
use std::marker::Model;

/// The events of a script and the end, and how far they were taken.
#[derive(Debug, Drop)]
pub struct Tape {
    events: Sequence<ScriptEvent>,
    // How many bytes were taken by each call that took an event of the script.
    notes: Notes,
    place: Place,
    // Whether the end was taken.
    ended: bool,
}

impl Model for Tape {
    ghost use Rattle.world.specs.Tapes.{Told, taken_of, coming_of, IsKept};

    ghost Value = { Told };

    ghost view = { λ t. record {
      opened = t.place.opened;
      taken = taken_of t.events t.notes.noted t.ended;
      coming = coming_of t.events t.notes.noted t.ended;
    } };

    ghost invariant = { λ t. IsKept t.events t.notes.noted t.notes.room t.place t.ended };
}

impl Tape {
    /// The events of the script, of which none was taken.
    pub fn new(script: Script) -> Tape
        ensures { result ≡ record { opened = 0; taken = []; coming = told script } }
    {
        let parts = script.into_parts();
        Tape {
            events: parts.events,
            notes: parts.notes,
            place: Place {
                index: 0,
                offset: 0,
                opened: 0,
            },
            ended: false,
        }
    }

    /// How many connections were opened.
    pub fn opened(&self) -> u32
        ensures { result ≡ self.now.opened }
    {
        self.place.opened
    }

    /// How many events were taken.
    pub fn seen(&self) -> u64
        ensures { result ≡ length self.now.taken }
    {
        let noted = self.notes.noted().len() as u64;
        if self.ended { noted + 1 } else { noted }
    }

    /// Takes the next event, of a piece as much as has room in the buffer. Takes no memory.
    pub fn next(&mut self, into: &mut [u8]) -> Event
        requires { 1 ≤ length into.old }
        ensures next { TakesNext (length into.old) (front_event result into.new) self.old self.new }
        ensures numbered { IsNumbered (length into.old) result self.old.opened self.new.opened }
        ensures bound { self.new.opened < 2 ^ 32 }
    {
        let (_, ahead) = self.events.items().split_at(self.place.index);
        let Some((event, _)) = ahead.split_first() else {
            self.ended = true;
            return Event::End;
        };
        let step = take_event(self.place, event, into);
        self.notes.note(step.note);
        self.place = step.place;
        step.event
    }
}
