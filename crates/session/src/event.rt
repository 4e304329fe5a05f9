//! The events of a front, each served before the next one is taken.
ghost use Rattle.std.specs.Prelude.{◌≡◌, ◌≤◌, All, Contains, length, IsErrOf};
ghost use Rattle.disk.specs.Beside.{End};
ghost use Rattle.session.specs.Calls.{Answers, CanServe, IsReady, Keeps, session_fault};
ghost use Rattle.session.specs.Comings.{EventComesTo, NextComesTo};
ghost use Rattle.session_ends.specs.Drawn.{HasDrawn};
ghost use Rattle.session_ends.specs.Pieces.{AreFresh};
ghost use Rattle.session_step.specs.Taken.{TakesNone, server_of};
ghost use Rattle.session_turns.specs.Turns.{HasNoEnd};
ghost use Rattle.world.specs.Events.{front_event};
ghost use Rattle.world.specs.Fronts.{IsAboveMark};

use crate::piece::answer_all;
use api_requests::{HandleFault, Service, standing_service_restores};
use conn_mux::Mux;
use session_ends::SessionFault;
use std::alloc::Global;
use world::{Event, Front};

// Why the session ends.
fn fault_of(fault: HandleFault) -> SessionFault
    ensures { result ≡ session_fault fault }
{
    match fault {
        HandleFault::Disk => SessionFault::Disk,
        HandleFault::Memory => SessionFault::Memory,
    }
}

// Serves the event, of a piece all requests that it completes. Answers how many were answered.
fn serve_event<W: Front>(
    alloc: Global,
    service: &mut Service,
    world: &mut W,
    mux: &mut Mux,
    event: Event,
    buffer: &[u8],
) -> Result<u64, HandleFault>
    requires lawful { CanServe (length buffer.now) event (W.beside world.old).opened mux.old }
    requires ready { IsReady W.tells W.held W.pending W.beside service.old world.old }
    ensures told { W.tells → Answers W.clock W.may_leave W.beside (server_of service.old) (server_of service.new)
        world.old world.new (EventComesTo result (front_event event buffer.now)
        (length (W.beside world.old).taken) mux.old mux.new) }
    ensures fresh { AreFresh (W.beside world.old).opened mux.old → AreFresh (W.beside world.old).opened mux.new }
    ensures ready { ¬ IsErrOf result HandleFault.Disk
        → IsReady W.tells W.held W.pending W.beside service.new world.new }
    ensures events { TakesNone (W.beside world.old) (W.beside world.new) }
    ensures keeps { Keeps W.faults service.old service.new world.old world.new
        (IsErrOf result HandleFault.Disk) }
{
    standing_service_restores(service, world);
    match event {
        Event::Opened(c) => match mux.opened(c) {
            Ok(()) => Ok(0),
            Err(_memory) => Err(HandleFault::Memory),
        },
        Event::Piece(c, n) => match mux.piece(c, &buffer[..n]) {
            Ok(()) => answer_all(alloc, service, world, mux, c),
            Err(_memory) => Err(HandleFault::Memory),
        },
        Event::Closed(c) => {
            mux.closed(c);
            Ok(0)
        }
        Event::End => Ok(0),
    }
}

/// Takes the next event and serves it. Answers how many requests were answered, or none at the end of the front.
pub(crate) fn serve_next<W: Front>(
    alloc: Global,
    service: &mut Service,
    world: &mut W,
    mux: &mut Mux,
    buffer: &mut [u8],
) -> Result<Option<u64>, SessionFault>
    requires room { 1 ≤ length buffer.old }
    requires fresh { AreFresh (W.beside world.old).opened mux.old }
    requires ready { IsReady W.tells W.held W.pending W.beside service.old world.old }
    requires going { W.tells → HasNoEnd (W.beside world.old).taken }
    ensures told { W.tells → Answers W.clock W.may_leave W.beside (server_of service.old) (server_of service.new)
        world.old world.new (NextComesTo result (W.beside world.old).taken (W.beside world.new).taken
        mux.old mux.new) }
    ensures drawn { W.tells → HasDrawn (length buffer.old) (W.beside world.old) (W.beside world.new) }
    ensures fresh { AreFresh (W.beside world.new).opened mux.new }
    ensures ready { ¬ IsErrOf result SessionFault.Disk
        → IsReady W.tells W.held W.pending W.beside service.new world.new }
    ensures front { IsErrOf result SessionFault.Front → IsAboveMark (W.beside world.new) }
    ensures keeps { Keeps W.faults service.old service.new world.old world.new
        (IsErrOf result SessionFault.Disk) }
{
    standing_service_restores(service, world);
    let event = match world.next(buffer) {
        Ok(event) => event,
        Err(_failed) => return Err(SessionFault::Front),
    };
    if let Event::End = event {
        return Ok(None);
    }
    match serve_event(alloc, service, world, mux, event, buffer) {
        Ok(answered) => Ok(Some(answered)),
        Err(fault) => Err(fault_of(fault)),
    }
}
