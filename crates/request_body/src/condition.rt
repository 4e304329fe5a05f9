//! The conditions of a request, under which it is meant for an object as it is stored.
ghost use Rattle.std.specs.Prelude.{◌≡◌, ◌≢◌, ◌↔◌, ◌++◌, ℕ, List, IsTrue, IfSome, IfNone, Some, codes, decimal, option_map};
ghost use Rattle.object_pages.specs.Documents.{uid_of};
ghost use Rattle.request_body.specs.Places.{given_in};
ghost use Rattle.request_body.specs.Writes.{IsAnother, IsCondition, IsMeantForAnother, conditions_in};
ghost use Rattle.serde_json.specs.View.{view};

use crate::given::{given_in, text_of};
use http_front::Verb;
use itoa::Buffer;
use object_state::Object;
use serde_json::Value;

fn is_decimal(text: &str, number: u64) -> bool
    ensures { IsTrue result ↔ (text.now ≡ decimal number) }
{
    let mut buffer = Buffer::new();
    text == buffer.format(number)
}

fn behind_u<'a>(text: &'a str) -> Option<&'a str>
    ensures some { IfSome result (λ rest. text.now ≡ codes "u" ++ rest.now) }
    ensures none { IfNone result ((rest : List ℕ) → text.now ≢ codes "u" ++ rest) }
{
    text.strip_prefix("u")
}

fn is_uid(text: &str, object: &Object) -> bool
    ensures { IsTrue result ↔ (text.now ≡ uid_of object.now) }
{
    match behind_u(text) {
        Some(created) => is_decimal(created, object.created),
        None => false,
    }
}

/// The condition that the body gives, if there is one: an empty text is none.
fn condition<'a>(tree: &'a Value, outer: &str, name: &str) -> Option<&'a str>
    ensures some { IfSome result (λ text.
        IsCondition (given_in outer.now name.now (view tree.now)) text.now) }
    ensures none { IfNone result ((text : List ℕ) →
        ¬ IsCondition (given_in outer.now name.now (view tree.now)) text) }
{
    let text = text_of(given_in(tree, outer, name)?)?;
    if text.is_empty() { None } else { Some(text) }
}

fn is_another_revision(outer: &str, tree: &Value, object: &Object) -> bool
    ensures { IsTrue result
        ↔ IsAnother (given_in outer.now (codes "resourceVersion") (view tree.now))
        (decimal object.now.revision) }
{
    match condition(tree, outer, "resourceVersion") {
        Some(text) => !is_decimal(text, object.revision),
        None => false,
    }
}

fn is_another_uid(outer: &str, tree: &Value, object: &Object) -> bool
    ensures { IsTrue result
        ↔ IsAnother (given_in outer.now (codes "uid") (view tree.now)) (uid_of object.now) }
{
    match condition(tree, outer, "uid") {
        Some(text) => !is_uid(text, object),
        None => false,
    }
}

fn conditions_in(verb: Verb) -> Option<&'static str>
    ensures { option_map (λ s. s.now) result ≡ conditions_in verb }
{
    match verb {
        Verb::Put => Some("metadata"),
        Verb::Delete => Some("preconditions"),
        Verb::Get | Verb::Post | Verb::Patch | Verb::Head | Verb::Other => None,
    }
}

/// Whether the request is meant for another revision of the object, or for another object: it gives a resource version
/// or a uid that isn't the object's own. No memory is taken.
pub fn is_meant_for_another(verb: Verb, tree: &Value, object: &Object) -> bool
    ensures { IsTrue result ↔ IsMeantForAnother verb (view tree.now) object.now }
{
    match conditions_in(verb) {
        Some(outer) => {
            is_another_revision(outer, tree, object) || is_another_uid(outer, tree, object)
        }
        None => false,
    }
}
