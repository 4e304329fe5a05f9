//! What follows from the meaning of a request, each law as the contract of a function that does
//! nothing.
ghost use Rattle.plain_machine.specs.Laws.{ChangesOneKey, CountsRecords, GoesOnFitting, HasKnownCode, HasOneStep, HasOneVerdict, LeavesState};

use crate::machine::Machine;
use http_front::Request;
use object_state::State;
use release_view::{view_finds_each, view_is_kept};
use request_target::path_asks_for_one;

/// A request isn't both refused and granted, and where it is refused it has one answer.
pub fn request_has_one_verdict(state: &State, request: &Request)
    ensures { HasOneVerdict state.now.state request.now }
{
    let _objects = state.objects();
    let _request = request;
}

/// A request has one reply in a state, and leaves one.
pub fn request_has_one_step(machine: &Machine, state: &State, request: &Request)
    ensures { HasOneStep machine.now state.now.state request.now }
{
    let _objects = state.objects();
    path_asks_for_one(&machine.view, request.path.bytes());
}

/// A request that is refused leaves the state, and so does a GET.
pub fn refused_request_leaves_state(machine: &Machine, state: &State, request: &Request)
    ensures { LeavesState machine.now state.now.state request.now }
{
    let _objects = state.objects();
    let _machine = machine;
    let _request = request;
}

/// A request changes one key at most. What this holds then is of the next revision, and the others
/// hold what they held.
pub fn request_changes_one_key(machine: &Machine, state: &State, request: &Request)
    ensures { ChangesOneKey machine.now state.now.state request.now }
{
    let _machine = machine;
    let _state = state;
    let _request = request;
}

/// A creation makes one record more, a deletion one less, and new fields leave their count.
pub fn request_counts_records(machine: &Machine, state: &State, request: &Request)
    ensures { CountsRecords machine.now state.now.state request.now }
{
    let _machine = machine;
    let _state = state;
    let _request = request;
}

/// The code of a reply is one of those that replies have.
pub fn request_has_known_code(machine: &Machine, state: &State, request: &Request)
    ensures { HasKnownCode machine.now state.now.state request.now }
{
    let _machine = machine;
    let _state = state;
    let _request = request;
}

/// Through each request the objects go on fitting every version of their resources that the view has.
pub fn request_keeps_fitting(machine: &Machine, state: &State, request: &Request)
    ensures { GoesOnFitting machine.now state.now.state request.now }
{
    let _state = state;
    let _request = request;
    view_finds_each(&machine.view);
    view_is_kept(&machine.view);
}
