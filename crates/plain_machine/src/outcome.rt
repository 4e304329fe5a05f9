//! What becomes of a request.
ghost use Rattle.std.specs.Prelude.{◌≡◌, ◌↔◌, IfErr, IfOk, IfSome, IsTrue, OnOk, Some, option_map};
ghost use Rattle.object_pages.specs.Fitting.{FitVersions};
ghost use Rattle.request_body.specs.Places.{place_seen};
ghost use Rattle.request_target.specs.Targets.{AsksFor, asked, resource_seen};
ghost use Rattle.request_target.specs.Told.{IsResourceIn, IsTold};
ghost use Rattle.plain_machine.specs.Calls.{AreTexts, FitAtPlace, IsGrantedIn, IsMethodAt, IsRefusedIn, IsSoundIn, Passed};
ghost use Rattle.plain_machine.specs.Deciding.{IsDecided, IsGrantedTo};
ghost use Rattle.plain_machine.specs.Heads.{IsStop};
ghost use Rattle.plain_machine.specs.Reading.{ReadsPage};
ghost use Rattle.plain_machine.specs.Refusals.{IsRefused, refusals};
ghost use Rattle.plain_machine.specs.Sound.{IsSound};
ghost use Rattle.plain_machine.specs.Steps.{Decides};

use crate::answer::{not_served, reply_to};
use crate::call::Call;
use crate::decision::{Decided, Decision};
use crate::head::passes_head;
use crate::machine::Machine;
use crate::read::{object, page};
use crate::stop::Stop;
use crate::write::{create, remove, replace};
use basis::Memory;
use http_front::{Request, Verb};
use object_state::State;
use release_view::versions_spell_alike;
use request_body::Place;
use request_target::{Target, target_of, warning_of};
use std::alloc::Global;

fn reads_page(verb: Verb, target: Target<'_>) -> bool
    ensures { IsTrue result ↔ ReadsPage verb (asked target.entry) }
{
    match target {
        Target::Object(_, _, _) => false,
        _ => verb == Verb::Get,
    }
}

/// What becomes of a request for objects at a place.
fn granted_at(alloc: Global, call: &Call<'_>) -> Result<Decision, Stop>
    requires method { IsMethodAt (place_seen call.now.place).own call.now.request.now.verb }
    requires texts { AreTexts (place_seen call.now.place) }
    requires fits { FitAtPlace call.now }
    ensures granted { IfOk result (IsGrantedIn call.now) }
    ensures passed { OnOk result (Passed call.now refusals) }
    ensures sound { IfOk result (λ d. IfSome d.change (IsSoundIn call.now)) }
    ensures refused { IfErr result (IsStop (IsRefusedIn call.now)) }
{
    match call.request.verb {
        Verb::Get => {
            let answer = object(alloc, call)?;
            Ok(Decision {
                answer,
                change: None,
            })
        }
        Verb::Post => create(alloc, call),
        Verb::Put => replace(alloc, call),
        Verb::Delete => remove(alloc, call),
        Verb::Patch | Verb::Head | Verb::Other => unreachable!(),
    }
}

/// What becomes of a request that asks for something that is served.
fn granted(
    alloc: Global,
    machine: &Machine,
    state: &State,
    request: &Request,
    target: Target<'_>,
) -> Result<Decision, Stop>
    requires asks { AsksFor machine.now.view request.now.path (Some (asked target)) }
    requires told { IsTold machine.now.view.versions (asked target) }
    requires fits { FitVersions machine.now.view.versions state.now.state.objects }
    ensures granted { IfOk result (λ d.
        IsGrantedTo machine.now state.now.state request.now (asked target.entry) d) }
    ensures sound { IfOk result (λ d.
        IfSome d.change (IsSound machine.now.view.versions state.now.state)) }
    ensures refused { IfErr result (IsStop
        (IsRefused state.now.state request.now (Some (asked target.entry)))) }
{
    passes_head(alloc, request, target)?;
    if reads_page(request.verb, target) {
        let answer = page(alloc, machine, state, target)?;
        return Ok(Decision {
            answer,
            change: None,
        });
    }
    versions_spell_alike(&machine.view);
    match Place::of_target(target) {
        Some(place) => granted_at(
            alloc,
            &Call {
                state,
                request,
                place,
            },
        ),
        None => unreachable!(),
    }
}

fn decision_on(
    alloc: Global,
    machine: &Machine,
    state: &State,
    request: &Request,
    target: Option<Target<'_>>,
) -> Result<Decision, Memory>
    requires asks { AsksFor machine.now.view request.now.path (option_map asked target) }
    requires told { IfSome target (λ t. IsTold machine.now.view.versions (asked t)) }
    requires fits { FitVersions machine.now.view.versions state.now.state.objects }
    ensures decides { IfOk result (λ d. Decides machine.now state.now.state request.now
        (option_map asked target.entry) d.answer d.change) }
    ensures sound { IfOk result (λ d.
        IfSome d.change (IsSound machine.now.view.versions state.now.state)) }
{
    match target {
        None => {
            let answer = not_served(alloc)?;
            Ok(Decision {
                answer,
                change: None,
            })
        }
        Some(target) => match granted(alloc, machine, state, request, target) {
            Ok(decision) => Ok(decision),
            Err(Stop::Refused(answer)) => Ok(Decision {
                answer,
                change: None,
            }),
            Err(Stop::Memory) => Err(Memory),
        },
    }
}

/// The reply to the request, and its change of the state, if it makes one: those of its step. The
/// objects of the state fit the versions of their resources that the machine's release reads; so does
/// what the change leaves, which keeps within the limits of a store.
pub fn decide(
    alloc: Global,
    machine: &Machine,
    state: &State,
    request: &Request,
) -> Result<Decided, Memory>
    requires { FitVersions machine.now.view.versions state.now.state.objects }
    ensures decided { IfOk result (IsDecided machine.now state.now.state request.now) }
    ensures sound { IfOk result (λ d.
        IfSome d.change (IsSound machine.now.view.versions state.now.state)) }
{
    let target = target_of(&machine.view, request.path.bytes());
    let warning = warning_of(alloc, &machine.view, target)?;
    let Decision { answer, change } = decision_on(alloc, machine, state, request, target)?;
    let reply = reply_to(request, warning, answer);
    Ok(Decided { reply, change })
}
