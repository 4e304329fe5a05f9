//! One item of a connection, from what was taken of its stream to what is sent.
ghost use Rattle.std.specs.Prelude.{◌≡◌, ◌≤◌, ◌<◌, ◌^◌, [], ◌∷◌, true, not, length, IfOk, OnOk, IsErr, IsErrOf};
ghost use Rattle.api_requests.specs.Finishing.{StandsOnDisk};
ghost use Rattle.conn_mux.specs.Items.{item_of};
ghost use Rattle.disk.specs.Moments.{Unchanged};
ghost use Rattle.http_front.specs.Items.{refused, taken_request};
ghost use Rattle.session_course.specs.Courses.{Course};
ghost use Rattle.session_course.specs.Servers.{Continues};
ghost use Rattle.session_step.specs.Carried.{IsCarriedOut, IsRefusal, IsSafe, IsTried, MakesRoom};
ghost use Rattle.session_step.specs.Taken.{ChangesState, CountsFailure, IsMarked, IsTurnOf, TakesNone, server_of};
ghost use Rattle.session_turns.specs.Turns.{Turn, ends_connection};

use crate::outgoing::{Outgoing, outgoing_of};
use api_requests::{HandleFault, Service, service_is_kept, standing_service_restores};
use basis::Memory;
use conn_mux::Incoming;
use http_front::{Request, bad_reply};
use std::alloc::Global;
use world::Front;

// Carries out a request: its reply is made, room is made to send it, and its change is stored. All memory is taken before the
// disk is called.
fn carry_out<W: Front>(
    alloc: Global,
    service: &mut Service,
    world: &mut W,
    request: &Request,
) -> Result<Outgoing, HandleFault>
    requires { StandsOnDisk W.tells (W.held world.old) (W.pending world.old) service.old }
    ensures done { IfOk result (IsCarriedOut service.old service.new (taken_request request.now)) }
    ensures safe { W.tells → OnOk result (IsSafe W.clock W.may_leave
        (server_of service.old) service.new.state world.old world.new) }
    ensures tried { W.tells → IsErrOf result HandleFault.Disk → IsTried W.clock W.may_leave
        (server_of service.old) (taken_request request.now) world.old world.new }
    ensures changes { IsErrOf result HandleFault.Disk
        → ChangesState (server_of service.old) (taken_request request.now) }
    ensures ended { IsErrOf result HandleFault.Disk → service.new.store.journal.ended ≡ true }
    ensures same { IsErr result → server_of service.new ≡ server_of service.old }
    ensures idle { W.tells → IsErrOf result HandleFault.Memory
        → Unchanged W.clock W.may_leave W.held W.pending world.old world.new }
    ensures clock { IsErrOf result HandleFault.Memory → W.clock world.new ≡ W.clock world.old }
    ensures stands { ¬ IsErrOf result HandleFault.Disk
        → StandsOnDisk W.tells (W.held world.new) (W.pending world.new) service.new }
    ensures room { OnOk result (1 ≤ (W.beside world.new).spare) }
    ensures beside { MakesRoom (W.beside world.old) (W.beside world.new) }
    ensures faults { CountsFailure (W.faults world.old) (W.faults world.new)
        (IsErrOf result HandleFault.Disk) }
{
    service_is_kept(service);
    let prepared = service.prepare(alloc, request)?;
    let outgoing = outgoing_of(alloc, prepared.reply())?;
    world.room()?;
    match service.finish(prepared, world) {
        Ok(_reply) => Ok(outgoing),
        Err(_failed) => Err(HandleFault::Disk),
    }
}

// Refuses a head that can't be read, and makes room to send that.
fn refuse<W: Front>(alloc: Global, world: &mut W) -> Result<Outgoing, Memory>
    ensures done { IfOk result IsRefusal }
    ensures room { OnOk result (1 ≤ (W.beside world.new).spare) }
    ensures beside { MakesRoom (W.beside world.old) (W.beside world.new) }
    ensures idle { W.tells → Unchanged W.clock W.may_leave W.held W.pending world.old world.new }
    ensures clock { W.clock world.new ≡ W.clock world.old }
    ensures faults { W.faults world.new ≡ W.faults world.old }
{
    let reply = bad_reply(alloc)?;
    let outgoing = outgoing_of(alloc, &reply)?;
    world.room()?;
    Ok(outgoing)
}

// Carries out what was taken, up to its sending.
fn carried<W: Front>(
    alloc: Global,
    service: &mut Service,
    world: &mut W,
    incoming: &Incoming,
) -> Result<Outgoing, HandleFault>
    requires { StandsOnDisk W.tells (W.held world.old) (W.pending world.old) service.old }
    ensures done { IfOk result (IsCarriedOut service.old service.new (item_of incoming.now)) }
    ensures safe { W.tells → OnOk result (IsSafe W.clock W.may_leave
        (server_of service.old) service.new.state world.old world.new) }
    ensures tried { W.tells → IsErrOf result HandleFault.Disk → IsTried W.clock W.may_leave
        (server_of service.old) (item_of incoming.now) world.old world.new }
    ensures changes { IsErrOf result HandleFault.Disk
        → ChangesState (server_of service.old) (item_of incoming.now) }
    ensures ended { IsErrOf result HandleFault.Disk → service.new.store.journal.ended ≡ true }
    ensures same { IsErr result → server_of service.new ≡ server_of service.old }
    ensures idle { W.tells → IsErrOf result HandleFault.Memory
        → Unchanged W.clock W.may_leave W.held W.pending world.old world.new }
    ensures clock { IsErrOf result HandleFault.Memory → W.clock world.new ≡ W.clock world.old }
    ensures stands { ¬ IsErrOf result HandleFault.Disk
        → StandsOnDisk W.tells (W.held world.new) (W.pending world.new) service.new }
    ensures room { OnOk result (1 ≤ (W.beside world.new).spare) }
    ensures beside { MakesRoom (W.beside world.old) (W.beside world.new) }
    ensures faults { CountsFailure (W.faults world.old) (W.faults world.new)
        (IsErrOf result HandleFault.Disk) }
{
    match incoming {
        Incoming::Whole(request) => carry_out(alloc, service, world, request),
        Incoming::Bad => Ok(refuse(alloc, world)?),
    }
}

/// Answers one item of the connection: carries it out, and sends its reply. Answers whether the connection goes on. All
/// memory is taken before the disk is called, and the reply is sent once the change is on the disk; where the disk fails,
/// nothing is sent, and the service has ended. The connection was opened; the store's records stand on this disk.
pub fn answer<W: Front>(
    alloc: Global,
    service: &mut Service,
    world: &mut W,
    c: u32,
    incoming: &Incoming,
) -> Result<bool, HandleFault>
    requires opened { c < (W.beside world.old).opened }
    requires marked { IsMarked (W.beside world.old) }
    requires stands { StandsOnDisk W.tells (W.held world.old) (W.pending world.old) service.old }

    // The item has its turn, whose reply was sent; the connection goes on where that wasn't the last, and went.
    ensures ok { W.tells → IfOk result (λ goes_on. (t : Turn)
        × IsTurnOf c (item_of incoming.now) (W.beside world.old) t
        × (goes_on ≡ not (ends_connection t))
        × Course W.clock W.may_leave W.beside (server_of service.old) (server_of service.new)
        world.old world.new (t ∷ []) []) }

    // Where the disk failed, the turn was begun, and nothing was sent.
    ensures disk { W.tells → IsErrOf result HandleFault.Disk → (t : Turn)
        × IsTurnOf c (item_of incoming.now) (W.beside world.old) t
        × Course W.clock W.may_leave W.beside (server_of service.old) (server_of service.new)
        world.old world.new [] (t ∷ []) }

    // The disk fails only in a change.
    ensures changes { IsErrOf result HandleFault.Disk
        → ChangesState (server_of service.old) (item_of incoming.now) }

    // Where memory ran out, nothing was begun, and the disk wasn't called.
    ensures memory { W.tells → IsErrOf result HandleFault.Memory
        → Course W.clock W.may_leave W.beside (server_of service.old) (server_of service.new)
        world.old world.new [] [] }
    ensures idle { W.tells → IsErrOf result HandleFault.Memory
        → Unchanged W.clock W.may_leave W.held W.pending world.old world.new }
    ensures clock { IsErrOf result HandleFault.Memory → W.clock world.new ≡ W.clock world.old }

    ensures stands { ¬ IsErrOf result HandleFault.Disk
        → StandsOnDisk W.tells (W.held world.new) (W.pending world.new) service.new }
    ensures ended { IsErrOf result HandleFault.Disk → service.new.store.journal.ended ≡ true }
    ensures continues { Continues (server_of service.old) (server_of service.new) }
    ensures events { TakesNone (W.beside world.old) (W.beside world.new) }
    ensures marked { IsMarked (W.beside world.new) }
    ensures faults { CountsFailure (W.faults world.old) (W.faults world.new)
        (IsErrOf result HandleFault.Disk) }
    ensures few { W.tells → length (W.beside world.old).sends < 2 ^ 64
        → length (W.beside world.new).sends < 2 ^ 64 }
{
    standing_service_restores(service, world);
    let outgoing = carried(alloc, service, world, incoming)?;
    standing_service_restores(service, world);
    let last = outgoing.last;
    let went = world.send(c, outgoing.bytes, last).is_ok();
    Ok(went && !last)
}
