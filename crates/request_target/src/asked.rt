//! What a path asks for.
ghost use Rattle.std.specs.Prelude.{◌≡◌, IfSome, is_some, option_map, option_and_then};
ghost use Rattle.discovery.specs.Groups.{group_among, serves_group};
ghost use Rattle.discovery.specs.Resources.{is_of, serves_version, resources_among};
ghost use Rattle.http_front.specs.Paths.{IsNamespace, IsObjectName};
ghost use Rattle.http_front.specs.Routes.{HasShapes, IsInSome, group_page, resource_list, all_objects, objects_inside, one_object, route_named};
ghost use Rattle.lifecycle.specs.Entry.{named};
ghost use Rattle.request_target.specs.Laws.{AsksForOne};
ghost use Rattle.request_target.specs.Told.{IsResourceIn, IsTold};
ghost use Rattle.request_target.specs.Targets.{AsksFor, asked, asked_in, fits_scope, resource_in, resource_seen};

use crate::target::{Resource, Target};
use http_front::{Route, path_has_one_route, route_of};
use lifecycle::ApiName;
use release_view::{ServedVersion, View, view_finds_each};

fn serves_group(served: &[ServedVersion], group: &[u8]) -> bool
    ensures { result ≡ serves_group served.now group.now }
{
    served.iter().any(|version| version.group.bytes() == group)
}

// Whether the group has a document of its own.
fn is_group(served: &[ServedVersion], group: &[u8]) -> bool
    ensures { result ≡ is_some (group_among served.now group.now) }
{
    !group.is_empty() && serves_group(served, group)
}

fn is_of(version: &ServedVersion, group: &[u8], word: &[u8]) -> bool
    ensures { result ≡ is_of group.now word.now version.now }
{
    version.group.bytes() == group && version.version.bytes() == word
}

fn serves_version(served: &[ServedVersion], group: &[u8], version: &[u8]) -> bool
    ensures { result ≡ serves_version served.now group.now version.now }
{
    served
        .iter()
        .any(|resource| is_of(resource, group, version))
}

// Whether the version has a document of its resources.
fn is_version(served: &[ServedVersion], group: &[u8], version: &[u8]) -> bool
    ensures { result ≡ is_some (resources_among served.now group.now version.now) }
{
    serves_version(served, group, version)
}

// The version with this name. None where it isn't served.
fn resource_in<'a>(view: &'a View, name: ApiName<'_>) -> Option<Resource<'a>>
    ensures asked { option_map resource_seen result ≡ resource_in view.now (named name.entry) }
    ensures told { IfSome result (λ r. IsResourceIn view.now.versions (resource_seen r)) }
{
    view_finds_each(view);
    let served = view.find(name)?;
    let table = view.table(name)?;
    Some(Resource { served, table })
}

// Whether the resource's objects are in such a namespace; an empty one is none.
fn fits_scope(of: Resource<'_>, namespace: &[u8]) -> bool
    ensures { result ≡ fits_scope (resource_seen of.entry) namespace.now }
{
    if namespace.is_empty() {
        !of.served.namespaced
    } else {
        of.served.namespaced
    }
}

fn group_in<'a>(view: &'a View, name: &'a [u8]) -> Option<Target<'a>>
    ensures { option_map asked result ≡ asked_in view.now (group_page name.now) }
{
    if is_group(view.served(), name) {
        Some(Target::Group(name))
    } else {
        None
    }
}

fn version_in<'a>(view: &'a View, group: &'a [u8], version: &'a [u8]) -> Option<Target<'a>>
    ensures { option_map asked result ≡ asked_in view.now (resource_list group.now version.now) }
{
    if is_version(view.served(), group, version) {
        Some(Target::Resources(group, version))
    } else {
        None
    }
}

fn everywhere_in<'a>(view: &'a View, name: ApiName<'_>) -> Option<Target<'a>>
    ensures asked { option_map asked result ≡ asked_in view.now (all_objects (named name.entry)) }
    ensures told { IfSome result (λ t. IsTold view.now.versions (asked t)) }
{
    match resource_in(view, name) {
        Some(of) => Some(Target::Everywhere(of)),
        None => None,
    }
}

fn inside_in<'a>(view: &'a View, name: ApiName<'_>, namespace: &'a [u8]) -> Option<Target<'a>>
    requires { IsNamespace namespace.now }
    ensures asked { option_map asked result
        ≡ asked_in view.now (objects_inside (named name.entry) namespace.now) }
    ensures told { IfSome result (λ t. IsTold view.now.versions (asked t)) }
{
    match resource_in(view, name) {
        Some(of) if fits_scope(of, namespace) => Some(Target::Inside(of, namespace)),
        _ => None,
    }
}

fn object_in<'a>(
    view: &'a View,
    of: ApiName<'_>,
    namespace: &'a [u8],
    name: &'a [u8],
) -> Option<Target<'a>>
    requires namespace { IsInSome namespace.now of.resource.now }
    requires name { IsObjectName name.now }
    ensures asked { option_map asked result
        ≡ asked_in view.now (one_object (named of.entry) namespace.now name.now) }
    ensures told { IfSome result (λ t. IsTold view.now.versions (asked t)) }
{
    match resource_in(view, of) {
        Some(of) if fits_scope(of, namespace) => Some(Target::Object(of, namespace, name)),
        _ => None,
    }
}

// What the route asks for, where that is served and fits the scope.
fn target_in<'a>(view: &'a View, route: Route<'a>) -> Option<Target<'a>>
    requires { IfSome (route_named route) HasShapes }
    ensures asked { option_map asked result
        ≡ option_and_then (asked_in view.now) (route_named route.entry) }
    ensures told { IfSome result (λ t. IsTold view.now.versions (asked t)) }
{
    match route {
        Route::Version => Some(Target::Releases),
        Route::Metrics => Some(Target::Gates),
        Route::Groups => Some(Target::Groups),
        Route::Group(name) => group_in(view, name),
        Route::Resources(group, version) => version_in(view, group, version),
        Route::All(of) => everywhere_in(view, of),
        Route::Inside(of, namespace) => inside_in(view, of, namespace),
        Route::One(of, namespace, name) => object_in(view, of, namespace, name),
        Route::Nowhere => None,
    }
}

/// What the path asks for, of what the release serves. None where it names nothing that is served.
pub fn target_of<'a>(view: &'a View, path: &'a [u8]) -> Option<Target<'a>>
    ensures asked { AsksFor view.now path.now (option_map asked result) }
    ensures told { IfSome result (λ t. IsTold view.now.versions (asked t)) }
{
    let route = route_of(path);
    target_in(view, route)
}

/// A path asks for one thing at most.
pub fn path_asks_for_one(view: &View, path: &[u8])
    ensures { AsksForOne view.now path.now }
{
    let _view = view;
    path_has_one_route(path);
}
