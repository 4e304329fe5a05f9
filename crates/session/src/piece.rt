//! The items that a piece completes, answered in turn.
ghost use Rattle.std.specs.Prelude.{◌≡◌, ◌<◌, length, IsErrOf};
ghost use Rattle.conn_mux.specs.Held.{flow_of, KeepsOthers};
ghost use Rattle.session.specs.Calls.{Answers, IsReady, Keeps};
ghost use Rattle.session.specs.Comings.{ItemComesTo, PieceComesTo};
ghost use Rattle.session_step.specs.Taken.{TakesNone, server_of};
ghost use Rattle.session_turns.specs.Caught.{left_to_take};

use api_requests::{HandleFault, Service, standing_service_restores};
use conn_mux::Mux;
use session_step::answer;
use session_turns::takings_end;
use std::alloc::Global;
use world::Front;

/// What the next item of a connection came to.
#[derive(Clone, Copy, Debug, PartialEq, Eq)]
pub(crate) enum Answered {
    /// There is none.
    Nothing,
    /// It was answered.
    GoesOn,
    /// It was answered, and the connection was dropped.
    Ended,
}

// Answers the connection's next item, if it has one. Where its reply is the last, or didn't go, the connection is dropped.
fn answer_next<W: Front>(
    alloc: Global,
    service: &mut Service,
    world: &mut W,
    mux: &mut Mux,
    c: u32,
) -> Result<Answered, HandleFault>
    requires opened { c < (W.beside world.old).opened }
    requires ready { IsReady W.tells W.held W.pending W.beside service.old world.old }
    ensures told { W.tells → Answers W.clock W.may_leave W.beside (server_of service.old) (server_of service.new)
        world.old world.new (ItemComesTo result c (length (W.beside world.old).taken) mux.old mux.new) }
    ensures less { result ≡ Ok Answered.GoesOn
        → left_to_take (flow_of mux.new c) < left_to_take (flow_of mux.old c) }
    ensures others { KeepsOthers mux.old c mux.new }
    ensures ready { ¬ IsErrOf result HandleFault.Disk
        → IsReady W.tells W.held W.pending W.beside service.new world.new }
    ensures events { TakesNone (W.beside world.old) (W.beside world.new) }
    ensures keeps { Keeps W.faults service.old service.new world.old world.new
        (IsErrOf result HandleFault.Disk) }
{
    standing_service_restores(service, world);
    takings_end();
    let incoming = match mux.take(c) {
        Ok(Some(incoming)) => incoming,
        Ok(None) => return Ok(Answered::Nothing),
        Err(_memory) => return Err(HandleFault::Memory),
    };
    match answer(alloc, service, world, c, &incoming) {
        Ok(true) => Ok(Answered::GoesOn),
        Ok(false) => {
            mux.shut(c);
            Ok(Answered::Ended)
        }
        Err(fault) => Err(fault),
    }
}

/// Answers all items of the connection that can be taken, in order, up to one that ends it. Answers how many.
pub(crate) fn answer_all<W: Front>(
    alloc: Global,
    service: &mut Service,
    world: &mut W,
    mux: &mut Mux,
    c: u32,
) -> Result<u64, HandleFault>
    requires opened { c < (W.beside world.old).opened }
    requires ready { IsReady W.tells W.held W.pending W.beside service.old world.old }
    ensures told { W.tells → Answers W.clock W.may_leave W.beside (server_of service.old) (server_of service.new)
        world.old world.new (PieceComesTo result c (length (W.beside world.old).taken) mux.old mux.new) }
    ensures others { KeepsOthers mux.old c mux.new }
    ensures ready { ¬ IsErrOf result HandleFault.Disk
        → IsReady W.tells W.held W.pending W.beside service.new world.new }
    ensures events { TakesNone (W.beside world.old) (W.beside world.new) }
    ensures keeps { Keeps W.faults service.old service.new world.old world.new
        (IsErrOf result HandleFault.Disk) }
{
    standing_service_restores(service, world);
    let mut answered = 0u64;
    loop {
        match answer_next(alloc, service, world, mux, c) {
            Ok(Answered::Nothing) => return Ok(answered),
            Ok(Answered::GoesOn) => answered = answered.saturating_add(1),
            Ok(Answered::Ended) => return Ok(answered.saturating_add(1)),
            Err(fault) => return Err(fault),
        }
    }
}
