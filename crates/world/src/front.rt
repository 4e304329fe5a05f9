//! The trait `Front`.
ghost use Rattle.std.specs.Prelude.{◌≡◌, ◌+◌, ◌≤◌, ◌<◌, ◌^◌, ◌∷◌, [], ◌++◌, length, is_ok, IfOk, OnOk, OnErr, MatchResult};
ghost use Rattle.basis.specs.Counts.{HasCause};
ghost use Rattle.disk.specs.Counted.{counted};
ghost use Rattle.disk.specs.Moments.{Moments, Unchanged};
ghost use Rattle.world.specs.Events.{front_event};
ghost use Rattle.world.specs.Rules.{IsLawful};
ghost use Rattle.world.specs.Fronts.{IsNumbered, TakesFirst, TakesOne, LeavesSends, LeavesEvents};

use crate::event::Event;
use basis::Memory;
use disk::{Disk, Failed};
use minor_version::Blob;

/// The connections of a server and its disk. What is said of the events that were taken, of those to come and of the
/// sends holds of a front that tells them; all of it lies beside the disk. A call answers `Failed` only where the front's
/// count of faults rose in it.
pub trait Front: Disk {
    /// Takes the next event. A piece that is longer than `into` is taken in parts, each a piece of its own. After
    /// `Failed` no event was taken, and the content of `into` is unknown.
    fn next(&mut self, into: &mut [u8]) -> Result<Event, Failed>
        requires { 1 ≤ length into.old }
        ensures first { Self.tells → IfOk result
            (λ e. TakesFirst (length into.old) (front_event e into.new) (Self.beside self.old) (Self.beside self.new)) }
        ensures one { Self.tells → IfOk result
            (λ e. TakesOne (front_event e into.new) (Self.beside self.old) (Self.beside self.new)) }
        ensures lawful { Self.tells → OnOk result (IsLawful (Self.beside self.new).taken) }
        ensures numbered { IfOk result
            (λ e. IsNumbered (length into.old) e (Self.beside self.old).opened (Self.beside self.new).opened) }
        ensures bound { (Self.beside self.new).opened < 2 ^ 32 }
        ensures failed { OnErr result (LeavesEvents (Self.beside self.old) (Self.beside self.new)) }
        ensures sends { LeavesSends (Self.beside self.old) (Self.beside self.new) }
        ensures cause { HasCause (Self.beside self.old).front_faults (Self.beside self.new).front_faults result }
        ensures fine { OnOk result ((Self.beside self.new).front_faults ≡ (Self.beside self.old).front_faults) }
        ensures same { Self.tells → Unchanged Self.clock Self.may_leave Self.held Self.pending self.old self.new }
        ensures clock { Self.clock self.new ≡ Self.clock self.old }
        ensures faults { Self.faults self.new ≡ Self.faults self.old };

    /// Makes room for a send.
    fn room(&mut self) -> Result<(), Memory>
        ensures ok { OnOk result (1 ≤ (Self.beside self.new).spare) }
        ensures err { OnErr result ((Self.beside self.new).spare ≡ (Self.beside self.old).spare) }
        ensures beside { Self.beside self.new
            ≡ record (Self.beside self.old) { spare = (Self.beside self.new).spare } }
        ensures same { Self.tells → Unchanged Self.clock Self.may_leave Self.held Self.pending self.old self.new }
        ensures clock { Self.clock self.new ≡ Self.clock self.old }
        ensures faults { Self.faults self.new ≡ Self.faults self.old };

    /// Sends the bytes, as the last of their connection or not, in room that was made before. Takes no memory. After
    /// `Failed`, and after the last, the connection is shut; events of it may still come.
    fn send(&mut self, c: u32, bytes: Blob, last: bool) -> Result<(), Failed>
        requires opened { c < (Self.beside self.old).opened }
        requires room { 1 ≤ (Self.beside self.old).spare }
        ensures sends { Self.tells → (Self.beside self.new).sends ≡ (Self.beside self.old).sends ++ (record {
          at = Self.clock self.new;
          seen = length (Self.beside self.old).taken;
          c = c;
          bytes = bytes;
          last = last;
          went = is_ok result;
        }) ∷ [] }
        ensures count { Self.tells → length (Self.beside self.new).sends < 2 ^ 64 }
        ensures spare { (Self.beside self.new).spare + 1 ≡ (Self.beside self.old).spare }
        ensures events { LeavesEvents (Self.beside self.old) (Self.beside self.new) }
        ensures mark { (Self.beside self.new).send_mark ≡ (Self.beside self.new).front_faults }
        ensures cause { HasCause (Self.beside self.old).front_faults (Self.beside self.new).front_faults result }
        ensures same { Self.tells → Unchanged Self.clock Self.may_leave Self.held Self.pending self.old self.new }
        ensures time { Self.tells → Moments Self.clock Self.may_leave self.old self.new
            (λ _. Self.may_leave self.old (Self.clock self.old)) }
        ensures clock { Self.clock self.new ≡ counted (Self.clock self.old) }
        ensures faults { Self.faults self.new ≡ Self.faults self.old };
}
