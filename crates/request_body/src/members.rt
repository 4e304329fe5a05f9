//! Which member of a body doesn't fit.
ghost use Rattle.std.specs.Prelude.{◌≡◌, ◌↔◌, All, IsTrue, IfSome, IfNone, option_copied};
ghost use Rattle.conversion.specs.Trees.{IsObject};
ghost use Rattle.lifecycle.specs.Names.{group_version};
ghost use Rattle.request_body.specs.Members.{IsText, IsName, IsOwnName, IsRevision, FitsMember, IsMisfit, members_of};
ghost use Rattle.request_body.specs.Places.{given, given_in, place_seen};
ghost use Rattle.request_body.specs.declared.member.Member.TheVariants.{Version, Kind, Name, Namespace, Revision};
ghost use Rattle.serde_json.specs.Data.{string};
ghost use Rattle.serde_json.specs.View.{view};

use crate::given::{given, given_in, text_of};
use crate::member::Member;
use crate::place::Place;
use crate::version::is_group_version;
use http_front::{Verb, is_object_name};
use serde_json::Value;

/// The members of an object, in the order in which they are tested.
const OBJECT_MEMBERS: [Member; 7] = [
    Member::Version,
    Member::Kind,
    Member::Metadata,
    Member::Name,
    Member::Namespace,
    Member::Revision,
    Member::Uid,
];

/// Those of a deletion.
const DELETION_MEMBERS: [Member; 3] = [
    Member::Preconditions,
    Member::WantedRevision,
    Member::WantedUid,
];

// ---- tests of what is given

fn is_text(json: &Value) -> bool
    ensures { IsTrue result ↔ IsText (view json.now) }
{
    text_of(json).is_some()
}

fn is_text_of(json: &Value, bytes: &[u8]) -> bool
    ensures { IsTrue result ↔ (view json.now ≡ string bytes.now) }
{
    match text_of(json) {
        Some(text) => text.as_bytes() == bytes,
        None => false,
    }
}

fn is_own_name(text: &[u8], own: Option<&[u8]>) -> bool
    ensures { IsTrue result ↔ IsOwnName (option_copied own.entry) text.now }
{
    match own {
        Some(own) => text == own,
        None => true,
    }
}

fn is_name(json: &Value, own: Option<&[u8]>) -> bool
    ensures { IsTrue result ↔ IsName (option_copied own.entry) (view json.now) }
{
    match text_of(json) {
        Some(text) => is_object_name(text.as_bytes()) && is_own_name(text.as_bytes(), own),
        None => false,
    }
}

fn is_revision(json: &Value, own: Option<&[u8]>) -> bool
    ensures { IsTrue result ↔ IsRevision (option_copied own.entry) (view json.now) }
{
    match text_of(json) {
        Some(text) => text.is_empty() || own.is_some(),
        None => false,
    }
}

fn is_version_of(json: &Value, group: &str, version: &str) -> bool
    ensures { IsTrue result ↔ (view json.now ≡ string (group_version group.now version.now)) }
{
    match text_of(json) {
        Some(text) => is_group_version(text, group, version),
        None => false,
    }
}

// ---- a test a member

fn fits_version(place: Place<'_>, tree: &Value) -> bool
    ensures { IsTrue result ↔ FitsMember (place_seen place.entry) (view tree.now) Version }
{
    let served = place.of.served;
    match given(tree, "apiVersion") {
        Some(json) => is_version_of(json, served.group.as_str(), served.version.as_str()),
        None => true,
    }
}

fn fits_kind(place: Place<'_>, tree: &Value) -> bool
    ensures { IsTrue result ↔ FitsMember (place_seen place.entry) (view tree.now) Kind }
{
    match given(tree, "kind") {
        Some(json) => is_text_of(json, place.of.served.kind.bytes()),
        None => true,
    }
}

fn fits_name(place: Place<'_>, tree: &Value) -> bool
    ensures { IsTrue result ↔ FitsMember (place_seen place.entry) (view tree.now) Name }
{
    match given_in(tree, "metadata", "name") {
        Some(json) => is_name(json, place.own),
        None => place.own.is_some(),
    }
}

fn fits_namespace(place: Place<'_>, tree: &Value) -> bool
    ensures { IsTrue result ↔ FitsMember (place_seen place.entry) (view tree.now) Namespace }
{
    match given_in(tree, "metadata", "namespace") {
        Some(json) => is_text_of(json, place.namespace),
        None => true,
    }
}

fn fits_revision(place: Place<'_>, tree: &Value) -> bool
    ensures { IsTrue result ↔ FitsMember (place_seen place.entry) (view tree.now) Revision }
{
    match given_in(tree, "metadata", "resourceVersion") {
        Some(json) => is_revision(json, place.own),
        None => true,
    }
}

fn is_object_if_given(tree: &Value, name: &str) -> bool
    ensures { IsTrue result ↔ IfSome (given name.now (view tree.now)) IsObject }
{
    match given(tree, name) {
        Some(json) => json.is_object(),
        None => true,
    }
}

fn is_text_if_given(tree: &Value, outer: &str, name: &str) -> bool
    ensures { IsTrue result ↔ IfSome (given_in outer.now name.now (view tree.now)) IsText }
{
    match given_in(tree, outer, name) {
        Some(json) => is_text(json),
        None => true,
    }
}

fn fits(place: Place<'_>, tree: &Value, member: Member) -> bool
    ensures { IsTrue result ↔ FitsMember (place_seen place.entry) (view tree.now) member }
{
    match member {
        Member::Version => fits_version(place, tree),
        Member::Kind => fits_kind(place, tree),
        Member::Metadata => is_object_if_given(tree, "metadata"),
        Member::Name => fits_name(place, tree),
        Member::Namespace => fits_namespace(place, tree),
        Member::Revision => fits_revision(place, tree),
        Member::Uid => is_text_if_given(tree, "metadata", "uid"),
        Member::Preconditions => is_object_if_given(tree, "preconditions"),
        Member::WantedRevision => is_text_if_given(tree, "preconditions", "resourceVersion"),
        Member::WantedUid => is_text_if_given(tree, "preconditions", "uid"),
    }
}

// ---- the first misfit

fn members_of(verb: Verb) -> &'static [Member]
    ensures { result.now ≡ members_of verb }
{
    match verb {
        Verb::Post | Verb::Put => &OBJECT_MEMBERS,
        Verb::Delete => &DELETION_MEMBERS,
        Verb::Get | Verb::Patch | Verb::Head | Verb::Other => &[],
    }
}

/// The first member of the body that doesn't fit the request's method and place, if there is one. No memory is taken.
pub fn misfit(verb: Verb, place: Place<'_>, tree: &Value) -> Option<Member>
    ensures some { IfSome result (IsMisfit verb (place_seen place.entry) (view tree.now)) }
    ensures none { IfNone result
        (All (FitsMember (place_seen place.entry) (view tree.now)) (members_of verb)) }
{
    for member in members_of(verb) {
        if !fits(place, tree, *member) {
            return Some(*member);
        }
    }
    None
}
