//! What is read: pages, lists and objects.
ghost use Rattle.std.specs.Prelude.{◌≡◌, IfErr, IfOk, IsSome, None, OnOk, Some};
ghost use Rattle.discovery.specs.Groups.{group_list_page, group_page as page_of_group};
ghost use Rattle.discovery.specs.Releases.{releases_page};
ghost use Rattle.discovery.specs.Resources.{resource_list_page};
ghost use Rattle.http_front.specs.declared.request.Verb.TheVariants.{Get};
ghost use Rattle.object_pages.specs.Fitting.{FitVersions};
ghost use Rattle.request_body.specs.Places.{place_seen};
ghost use Rattle.request_target.specs.Targets.{asked, resource_seen};
ghost use Rattle.request_target.specs.Told.{IsResourceIn, IsTold};
ghost use Rattle.plain_machine.specs.Answers.{document};
ghost use Rattle.plain_machine.specs.Calls.{AreTexts, FitAtPlace, IsReadIn, IsRefusedIn, Passed};
ghost use Rattle.plain_machine.specs.Heads.{IsStop};
ghost use Rattle.plain_machine.specs.Reading.{HasPage, IsListAnswer, IsPage};
ghost use Rattle.plain_machine.specs.Refusals.{refusals};
ghost use Rattle.plain_machine.specs.Steps.{IsRead};

use crate::answer::{Answer, document, gates_page};
use crate::call::Call;
use crate::machine::Machine;
use crate::stop::Stop;
use crate::write::shown;
use basis::Memory;
use discovery::{group, group_list, resource_list, version_info};
use object_pages::list_page;
use object_state::State;
use release_view::View;
use request_target::{Resource, Target};
use std::alloc::Global;

fn releases(alloc: Global, machine: &Machine) -> Result<Answer, Memory>
    ensures { IfOk result (λ a. a ≡ document 200
        (releases_page machine.now.release machine.now.view.minor machine.now.back)) }
{
    let page = version_info(alloc, machine.release, machine.view.minor(), machine.back)?;
    document(alloc, 200, &page)
}

fn groups(alloc: Global, view: &View) -> Result<Answer, Memory>
    ensures { IfOk result (λ a. a ≡ document 200 (group_list_page view.now)) }
{
    let page = group_list(alloc, view)?;
    document(alloc, 200, &page)
}

fn group_by_name(alloc: Global, view: &View, name: &[u8]) -> Result<Answer, Memory>
    requires { IsSome (page_of_group view.now name.now) }
    ensures { IfOk result (IsPage (page_of_group view.now name.now)) }
{
    match group(alloc, view, name)? {
        Some(page) => document(alloc, 200, &page),
        None => unreachable!(),
    }
}

fn resources(alloc: Global, view: &View, group: &[u8], version: &[u8]) -> Result<Answer, Memory>
    requires { IsSome (resource_list_page view.now group.now version.now) }
    ensures { IfOk result (IsPage (resource_list_page view.now group.now version.now)) }
{
    match resource_list(alloc, view, group, version)? {
        Some(page) => document(alloc, 200, &page),
        None => unreachable!(),
    }
}

fn everywhere(alloc: Global, view: &View, state: &State, of: Resource<'_>) -> Result<Answer, Memory>
    requires known { IsResourceIn view.now.versions (resource_seen of) }
    requires fits { FitVersions view.now.versions state.now.state.objects }
    ensures { IfOk result (IsListAnswer state.now.state (resource_seen of.entry) None) }
{
    let group = of.served.group.bytes();
    let resource = of.served.resource.bytes();
    let objects = state.of_resource(group, resource);
    let page = list_page(alloc, of, state.revision(), objects)?;
    document(alloc, 200, &page)
}

fn inside(
    alloc: Global,
    view: &View,
    state: &State,
    of: Resource<'_>,
    namespace: &[u8],
) -> Result<Answer, Memory>
    requires known { IsResourceIn view.now.versions (resource_seen of) }
    requires fits { FitVersions view.now.versions state.now.state.objects }
    ensures { IfOk result
        (IsListAnswer state.now.state (resource_seen of.entry) (Some namespace.now)) }
{
    let group = of.served.group.bytes();
    let resource = of.served.resource.bytes();
    let objects = state.inside(group, resource, namespace);
    let page = list_page(alloc, of, state.revision(), objects)?;
    document(alloc, 200, &page)
}

/// The page or the list that is asked for.
pub(crate) fn page(
    alloc: Global,
    machine: &Machine,
    state: &State,
    target: Target<'_>,
) -> Result<Answer, Memory>
    requires there { HasPage machine.now.view (asked target) }
    requires told { IsTold machine.now.view.versions (asked target) }
    requires fits { FitVersions machine.now.view.versions state.now.state.objects }
    ensures { IfOk result (IsRead machine.now state.now.state (asked target.entry)) }
{
    let view = &machine.view;
    match target {
        Target::Releases => releases(alloc, machine),
        Target::Gates => gates_page(alloc, view),
        Target::Groups => groups(alloc, view),
        Target::Group(name) => group_by_name(alloc, view, name),
        Target::Resources(group, version) => resources(alloc, view, group, version),
        Target::Everywhere(of) => everywhere(alloc, view, state, of),
        Target::Inside(of, namespace) => inside(alloc, view, state, of, namespace),
        Target::Object(_, _, _) => unreachable!(),
    }
}

/// The object that the path names, whole.
pub(crate) fn object(alloc: Global, call: &Call<'_>) -> Result<Answer, Stop>
    requires get { call.now.request.now.verb ≡ Get }
    requires own { IsSome (place_seen call.now.place).own }
    requires texts { AreTexts (place_seen call.now.place) }
    requires fits { FitAtPlace call.now }
    ensures ok { IfOk result (IsReadIn call.now) }
    ensures passed { OnOk result (Passed call.now refusals) }
    ensures refused { IfErr result (IsStop (IsRefusedIn call.now)) }
{
    let key = call.own_key(alloc)?;
    let object = call.existing(alloc, &key)?;
    Ok(shown(alloc, 200, call.place.of, &key, object)?)
}
