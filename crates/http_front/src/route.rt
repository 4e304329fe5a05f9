ghost use Rattle.std.specs.Prelude.{◌∷◌, ◌++◌, [], All, codes};
ghost use Rattle.http_front.specs.Behind.{IsRouteBehind};
ghost use Rattle.http_front.specs.Paths.{IsSegment, IsNamespace};
ghost use Rattle.http_front.specs.Routes.{IsRouteOf, HasOneRoute, IsVersionOf, IsInSome, objects_inside, one_object, object_segments, route_named, segments_of, version_segments};
ghost use Rattle.lifecycle.specs.Entry.{named};

use crate::path::{is_namespace, is_object_name, next_segment};
use lifecycle::ApiName;

/// What the path of a request names.
#[derive(Clone, Copy, Debug)]
pub enum Route<'a> {
    /// The page of the three releases.
    Version,
    /// The page of the gates' values.
    Metrics,
    /// The list of groups.
    Groups,
    /// A group.
    Group(&'a [u8]),
    /// The resources of a group's version. The core group's name is empty.
    Resources(&'a [u8], &'a [u8]),
    /// All objects of a resource.
    All(ApiName<'a>),
    /// The objects of a resource in a namespace.
    Inside(ApiName<'a>, &'a [u8]),
    /// An object by its namespace and its name. The namespace is empty where the path has none.
    One(ApiName<'a>, &'a [u8], &'a [u8]),
    /// The path names nothing.
    Nowhere,
}

/// What the path names.
pub fn route_of<'a>(path: &'a [u8]) -> Route<'a>
    ensures { IsRouteOf path.now (route_named result) }
{
    match next_segment(path) {
        Some((first, rest)) => route_from(first, rest),
        None => Route::Nowhere,
    }
}

// The route of the path's first segment with the rest behind it.
fn route_from<'a>(first: &'a [u8], rest: &'a [u8]) -> Route<'a>
    requires { IsSegment first.now }
    ensures { IsRouteBehind (first.now ∷ []) rest.now (route_named result) }
{
    if first == b"api".as_slice() {
        route_in_core(rest)
    } else if first == b"apis".as_slice() {
        route_in_groups(rest)
    } else if rest.is_empty() && first == b"version".as_slice() {
        Route::Version
    } else if rest.is_empty() && first == b"metrics".as_slice() {
        Route::Metrics
    } else {
        Route::Nowhere
    }
}

// The route of `/api` with the rest behind it.
fn route_in_core<'a>(rest: &'a [u8]) -> Route<'a>
    ensures { IsRouteBehind (codes "api" ∷ []) rest.now (route_named result) }
{
    match next_segment(rest) {
        Some((version, rest)) if version == b"v1".as_slice() => route_in_version(
            &[],
            version,
            rest,
        ),
        _ => Route::Nowhere,
    }
}

// The route of `/apis` with the rest behind it.
fn route_in_groups<'a>(rest: &'a [u8]) -> Route<'a>
    ensures { IsRouteBehind (codes "apis" ∷ []) rest.now (route_named result) }
{
    if rest.is_empty() {
        return Route::Groups;
    }
    match next_segment(rest) {
        Some((group, rest)) => route_in_group(group, rest),
        None => Route::Nowhere,
    }
}

// The route of `/apis`, a group and the rest behind it.
fn route_in_group<'a>(group: &'a [u8], rest: &'a [u8]) -> Route<'a>
    requires { IsSegment group.now }
    ensures { IsRouteBehind (codes "apis" ∷ group.now ∷ []) rest.now (route_named result) }
{
    if rest.is_empty() {
        return Route::Group(group);
    }
    match next_segment(rest) {
        Some((version, rest)) => route_in_version(group, version, rest),
        None => Route::Nowhere,
    }
}

// The route of a version with the rest behind it.
fn route_in_version<'a>(group: &'a [u8], version: &'a [u8], rest: &'a [u8]) -> Route<'a>
    requires of { IsVersionOf group.now version.now }
    requires segments { All IsSegment (version_segments group.now version.now) }
    ensures { IsRouteBehind (version_segments group.now version.now)
        rest.now (route_named result) }
{
    if rest.is_empty() {
        return Route::Resources(group, version);
    }
    match next_segment(rest) {
        Some((resource, rest)) => {
            let of = ApiName {
                group,
                version,
                resource,
            };
            route_of_resource(of, rest)
        }
        None => Route::Nowhere,
    }
}

// The route of a resource with the rest behind it.
fn route_of_resource<'a>(of: ApiName<'a>, rest: &'a [u8]) -> Route<'a>
    requires of { IsVersionOf of.group.now of.version.now }
    requires segments { All IsSegment (object_segments (named of) (of.resource.now ∷ [])) }
    ensures { IsRouteBehind (object_segments (named of.entry) (of.entry.resource.now ∷ []))
        rest.now (route_named result) }
{
    if rest.is_empty() {
        return Route::All(of);
    }
    match next_segment(rest) {
        Some((namespace, rest)) if of.resource == b"namespaces".as_slice() => {
            route_in_namespace(of.group, of.version, namespace, rest)
        }
        Some((name, rest)) => route_of_object(of, &[], name, rest),
        None => Route::Nowhere,
    }
}

// The route of a version and a namespace in it, with the rest behind them.
fn route_in_namespace<'a>(
    group: &'a [u8],
    version: &'a [u8],
    namespace: &'a [u8],
    rest: &'a [u8],
) -> Route<'a>
    requires of { IsVersionOf group.now version.now }
    requires segments { All IsSegment
        (version_segments group.now version.now ++ (codes "namespaces" ∷ namespace.now ∷ [])) }
    ensures { IsRouteBehind
        (version_segments group.now version.now ++ (codes "namespaces" ∷ namespace.now ∷ []))
        rest.now (route_named result) }
{
    if !is_namespace(namespace) {
        return Route::Nowhere;
    }
    match next_segment(rest) {
        Some((resource, rest)) => {
            let of = ApiName {
                group,
                version,
                resource,
            };
            route_inside(of, namespace, rest)
        }
        None => Route::Nowhere,
    }
}

// The route of a resource in a namespace, with the rest behind them.
fn route_inside<'a>(of: ApiName<'a>, namespace: &'a [u8], rest: &'a [u8]) -> Route<'a>
    requires of { IsVersionOf of.group.now of.version.now }
    requires namespace { IsNamespace namespace.now }
    requires segments { All IsSegment (segments_of (objects_inside (named of) namespace.now)) }
    ensures { IsRouteBehind (segments_of (objects_inside (named of.entry) namespace.now))
        rest.now (route_named result) }
{
    if rest.is_empty() {
        return Route::Inside(of, namespace);
    }
    match next_segment(rest) {
        Some((name, rest)) => route_of_object(of, namespace, name, rest),
        None => Route::Nowhere,
    }
}

// The route of an object, if nothing stands behind it.
fn route_of_object<'a>(
    of: ApiName<'a>,
    namespace: &'a [u8],
    name: &'a [u8],
    rest: &'a [u8],
) -> Route<'a>
    requires of { IsVersionOf of.group.now of.version.now }
    requires namespace { IsInSome namespace.now of.resource.now }
    requires segments { All IsSegment (segments_of (one_object (named of) namespace.now name.now)) }
    ensures { IsRouteBehind (segments_of (one_object (named of.entry) namespace.now name.now))
        rest.now (route_named result) }
{
    if rest.is_empty() && is_object_name(name) {
        Route::One(of, namespace, name)
    } else {
        Route::Nowhere
    }
}

/// A path has one route.
pub fn path_has_one_route(path: &[u8])
    ensures { HasOneRoute path.now }
{
    let _path = path;
}
