//! A world in memory.
ghost use Rattle.std.specs.Prelude.{◌≡◌, ◌↔◌, ◌+◌, ◌≤◌, ◌<◌, ◌^◌, ◌∷◌, [], ◌++◌, map, length, is_ok, IfOk, OnOk, OnErr, IsTrue, Contains};
ghost use Rattle.basis.specs.Counts.{HasCause};
ghost use Rattle.disk.specs.Counted.{counted};
ghost use Rattle.disk.specs.MemDisk.{mem_held, mem_pending, mem_may_leave};
ghost use Rattle.disk.specs.Moments.{Elapses, Unchanged};
ghost use Rattle.world.specs.Events.{front_event};
ghost use Rattle.world.specs.Rules.{IsLawful};
ghost use Rattle.world.specs.Fronts.{IsAtStart, IsNumbered, TakesFirst, TakesOne, LeavesSends, LeavesEvents};
ghost use Rattle.world.specs.Outboxes.{sent_of};
ghost use Rattle.world.specs.Tapes.{told};
ghost use Rattle.world.specs.Worlds.{WorldRecord, untouched, IsFrontCall};

use crate::event::Event;
use crate::front::Front;
use crate::outbox::Outbox;
use crate::sent::Sent;
use crate::tape::Tape;
use basis::Memory;
use disk::{Disk, FailList, Failed, File, MemDisk};
use minor_version::Blob;
use scripts::Script;
use std::alloc::Global;
use std::marker::Model;

/// A disk in memory, and connections that bring the events of a script. It tells all, fails the calls of its list, and
/// keeps what is sent.
#[derive(Debug, Drop)]
pub struct MemWorld {
    disk: MemDisk,
    tape: Tape,
    outbox: Outbox,
    front_faults: u64,
    send_mark: u64,
    calls: u64,
    fail: FailList,
}

impl Model for MemWorld {
    ghost use Rattle.world.specs.Worlds.{WorldRecord};

    ghost Value = { WorldRecord };

    ghost view = { λ w. record {
      disk = w.disk;
      beside = record {
        front_faults = w.front_faults;
        send_mark = w.send_mark;
        opened = w.tape.opened;
        spare = w.outbox.spare;
        taken = w.tape.taken;
        coming = w.tape.coming;
        sends = w.outbox.sends;
      };
      calls = w.calls;
      fails = w.fail;
    } };
}

impl MemWorld {
    /// A world with this disk, as it stands, whose connections bring the events of the script. It fails the calls of
    /// `next` and `send` whose numbers, counted together from 1, are in the list. Takes no memory.
    pub fn new(alloc: Global, disk: MemDisk, script: Script, fail: FailList) -> Self
        ensures made { result ≡ record { disk = disk; beside = untouched (told script); calls = 0; fails = fail } }
        ensures start { IsAtStart result.beside }
    {
        MemWorld {
            disk,
            tape: Tape::new(script),
            outbox: Outbox::new(alloc),
            front_faults: 0,
            send_mark: 0,
            calls: 0,
            fail,
        }
    }

    /// What was sent.
    pub fn sends(&self) -> &[Sent]
        ensures { map sent_of result.now ≡ self.now.beside.sends }
    {
        self.outbox.sends()
    }

    /// The disk.
    pub fn disk(&self) -> &MemDisk
        ensures { result.now ≡ self.now.disk }
    {
        &self.disk
    }

    // Counts a call, and says whether it is one that fails.
    fn count_call(&mut self) -> bool
        ensures counted { self.new ≡ record self.old { calls = counted self.old.calls } }
        ensures listed { IsTrue result ↔ Contains self.old.fails (counted self.old.calls) }
        ensures fits { self.old.beside.front_faults < 2 ^ 64 }
        ensures bound { self.old.beside.opened < 2 ^ 32 }
    {
        let _faults = self.front_faults;
        let _opened = self.tape.opened();
        self.calls = self.calls.saturating_add(1);
        self.fail.contains(self.calls)
    }

    fn fault(&mut self) -> Failed
        ensures { self.new ≡ record self.old {
          beside = record self.old.beside { front_faults = counted self.old.beside.front_faults };
        } }
    {
        self.front_faults = self.front_faults.saturating_add(1);
        Failed
    }
}

impl Disk for MemWorld {
    ghost use Rattle.disk.specs.MemLaws.{mem_held_now};

    ghost faults = { λ w. w.disk.faults };

    ghost clock = { λ w. w.disk.clock };

    ghost tells = { Unit {0} };

    ghost held = { λ w. mem_held w.disk };

    ghost pending = { λ w. mem_pending w.disk };

    ghost may_leave = { λ w. mem_may_leave w.disk };

    ghost beside = { λ w. w.beside };

    ghost images_now = { λ w images told now. now };

    ghost held_now = { λ w told. mem_held_now w.disk };

    fn len(&mut self, file: File) -> Result<u64, Failed> {
        self.disk.len(file)
    }

    fn read_at(&mut self, file: File, at: u64, into: &mut [u8]) -> Result<(), Failed> {
        self.disk.read_at(file, at, into)
    }

    fn write_at(&mut self, file: File, at: u64, bytes: &[u8]) -> Result<(), Failed> {
        self.disk.write_at(file, at, bytes)
    }

    fn cut(&mut self, file: File, to: u64) -> Result<(), Failed> {
        self.disk.cut(file, to)
    }

    fn sync(&mut self, file: File) -> Result<(), Failed> {
        self.disk.sync(file)
    }
}

impl Front for MemWorld {
    fn next(&mut self, into: &mut [u8]) -> Result<Event, Failed>
        requires { 1 ≤ length into.old }
        ensures first { IfOk result
            (λ e. TakesFirst (length into.old) (front_event e into.new) self.old.beside self.new.beside) }
        ensures one { IfOk result (λ e. TakesOne (front_event e into.new) self.old.beside self.new.beside) }
        ensures lawful { OnOk result (IsLawful self.new.beside.taken) }
        ensures numbered { IfOk result
            (λ e. IsNumbered (length into.old) e self.old.beside.opened self.new.beside.opened) }
        ensures bound { self.new.beside.opened < 2 ^ 32 }
        ensures failed { OnErr result (LeavesEvents self.old.beside self.new.beside) }
        ensures sends { LeavesSends self.old.beside self.new.beside }
        ensures cause { HasCause self.old.beside.front_faults self.new.beside.front_faults result }
        ensures fine { OnOk result (self.new.beside.front_faults ≡ self.old.beside.front_faults) }
        ensures same { Unchanged (λ w. w.disk.clock) (λ w. mem_may_leave w.disk) (λ w. mem_held w.disk)
            (λ w. mem_pending w.disk) self.old self.new }
        ensures clock { self.new.disk.clock ≡ self.old.disk.clock }
        ensures faults { self.new.disk.faults ≡ self.old.disk.faults }

        // The listed calls fail, and no others.
        ensures call { IsFrontCall self.old self.new result }
        ensures disk { self.new.disk ≡ self.old.disk }
    {
        if self.count_call() {
            return Err(self.fault());
        }
        Ok(self.tape.next(into))
    }

    fn room(&mut self) -> Result<(), Memory> {
        self.outbox.room()
    }

    fn send(&mut self, c: u32, bytes: Blob, last: bool) -> Result<(), Failed>
        requires opened { c < self.old.beside.opened }
        requires room { 1 ≤ self.old.beside.spare }
        ensures sends { self.new.beside.sends ≡ self.old.beside.sends ++ (record {
          at = self.new.disk.clock;
          seen = length self.old.beside.taken;
          c = c;
          bytes = bytes;
          last = last;
          went = is_ok result;
        }) ∷ [] }
        ensures count { length self.new.beside.sends < 2 ^ 64 }
        ensures spare { self.new.beside.spare + 1 ≡ self.old.beside.spare }
        ensures events { LeavesEvents self.old.beside self.new.beside }
        ensures mark { self.new.beside.send_mark ≡ self.new.beside.front_faults }
        ensures cause { HasCause self.old.beside.front_faults self.new.beside.front_faults result }
        ensures same { Unchanged (λ w. w.disk.clock) (λ w. mem_may_leave w.disk) (λ w. mem_held w.disk)
            (λ w. mem_pending w.disk) self.old self.new }
        ensures time { Elapses self.old.disk.clock self.new.disk.clock (mem_may_leave self.old.disk)
            (mem_may_leave self.new.disk) (λ _. mem_may_leave self.old.disk self.old.disk.clock) }
        ensures clock { self.new.disk.clock ≡ counted self.old.disk.clock }
        ensures faults { self.new.disk.faults ≡ self.old.disk.faults }

        // The listed calls fail, and no others.
        ensures call { IsFrontCall self.old self.new result }
        ensures disk { self.new.disk ≡ record self.old.disk { clock = counted self.old.disk.clock } }
    {
        let fails = self.count_call();
        self.disk.pass();
        let sent = Sent {
            at: self.disk.moment(),
            seen: self.tape.seen(),
            c,
            bytes,
            last,
            went: !fails,
        };
        self.outbox.put(sent);
        if fails {
            let fault = self.fault();
            self.send_mark = self.front_faults;
            return Err(fault);
        }
        self.send_mark = self.front_faults;
        Ok(())
    }
}
