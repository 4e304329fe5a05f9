//! The loop over the events of a front.
ghost use Rattle.std.specs.Prelude.{◌≡◌, true, IfOk, IsErrOf};
ghost use Rattle.api_requests.specs.Finishing.{StandsOnDisk};
ghost use Rattle.session_ends.specs.Drawn.{HasDrawn};
ghost use Rattle.session_ends.specs.Ends.{Serves};
ghost use Rattle.session_step.specs.Taken.{CountsFailure, server_of};
ghost use Rattle.storage_version.specs.Kept.{AreKept};
ghost use Rattle.world.specs.Fronts.{IsAboveMark, IsAtStart};

use crate::event::serve_next;
use api_requests::{Service, service_is_kept, standing_service_restores};
use conn_mux::Mux;
use session_ends::{Served, SessionFault};
use std::alloc::Global;
use world::Front;

/// How many events a session takes at most, beside the end of the front.
const MOST_EVENTS: u64 = 4_294_967_296;

/// How many bytes of a piece are taken at a time.
const LONGEST_PIECE: usize = 4_096;

/// Serves the connections of a front, by one event at a time, until it gives its end: after a piece every request that it
/// completes is answered, in order. A reply is sent once its change is on the disk. Behind a last reply, and one that
/// didn't go, a connection gets nothing.
pub fn session<W: Front>(
    alloc: Global,
    service: &mut Service,
    world: &mut W,
) -> Result<Served, SessionFault>
    requires start { IsAtStart (W.beside world.old) }
    requires stands { StandsOnDisk W.tells (W.held world.old) (W.pending world.old) service.old }

    // The replies are those of the plain machine, and a stop at any moment leaves what is kept after those that were sent
    // by then, or after one more.
    ensures serves { W.tells → Serves W.clock W.may_leave W.beside
        (server_of service.old) (server_of service.new) world.old world.new result }

    // The events that were taken are the first of those that were to come.
    ensures drawn { W.tells → HasDrawn 4096 (W.beside world.old) (W.beside world.new) }

    // The server is what it was, and its records are what is kept of those at the start.
    ensures machine { service.new.machine ≡ service.old.machine }
    ensures back { service.new.back ≡ service.old.back }
    ensures kept { AreKept service.old.back.versions service.old.machine.view.versions service.old.store.items
        service.new.state service.new.store.items service.new.store.journal.revision }
    ensures revision { IfOk result (λ served. served.revision ≡ service.new.state.revision) }
    ensures stands { ¬ IsErrOf result SessionFault.Disk
        → StandsOnDisk W.tells (W.held world.new) (W.pending world.new) service.new }
    ensures ended { IsErrOf result SessionFault.Disk → service.new.store.journal.ended ≡ true }

    // A fault is answered only where its count rose: the front's above its value after the last send.
    ensures faults { CountsFailure (W.faults world.old) (W.faults world.new) (IsErrOf result SessionFault.Disk) }
    ensures front { IsErrOf result SessionFault.Front → IsAboveMark (W.beside world.new) }
{
    service_is_kept(service);
    standing_service_restores(service, world);
    let mut mux = Mux::new(alloc);
    let mut buffer = [0u8; LONGEST_PIECE];
    let mut requests = 0u64;
    for _taken in 0..MOST_EVENTS {
        match serve_next(alloc, service, world, &mut mux, &mut buffer) {
            Ok(Some(answered)) => requests = requests.saturating_add(answered),
            Ok(None) => {
                let revision = service.revision();
                return Ok(Served { requests, revision });
            }
            Err(fault) => return Err(fault),
        }
    }
    Err(SessionFault::Spent)
}
