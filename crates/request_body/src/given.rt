//! What stands at the members of a body. A member that is `null` counts as absent.
ghost use Rattle.std.specs.Prelude.{◌≡◌, ◌≢◌, ℕ, List, IfSome, IfNone, Some, codes, option_map};
ghost use Rattle.conversion.specs.Whole.{metadata};
ghost use Rattle.request_body.specs.Members.{IsText};
ghost use Rattle.request_body.specs.Places.{given, given_in, unless_null};
ghost use Rattle.serde_json.specs.Data.{string};
ghost use Rattle.serde_json.specs.View.{view};

use serde_json::Value;

fn unless_null<'a>(json: &'a Value) -> Option<&'a Value>
    ensures { option_map (λ v. view v.now) result ≡ unless_null (view json.now) }
{
    if json.is_null() { None } else { Some(json) }
}

/// What the object gives at a member.
pub(crate) fn given<'a>(tree: &'a Value, name: &str) -> Option<&'a Value>
    ensures { option_map (λ v. view v.now) result ≡ given name.now (view tree.now) }
{
    unless_null(tree.get(name)?)
}

/// What the object gives at a member within a member.
pub(crate) fn given_in<'a>(tree: &'a Value, outer: &str, name: &str) -> Option<&'a Value>
    ensures { option_map (λ v. view v.now) result ≡ given_in outer.now name.now (view tree.now) }
{
    given(given(tree, outer)?, name)
}

/// The text that the JSON is, if it is one.
pub(crate) fn text_of(json: &Value) -> Option<&str>
    ensures some { IfSome result (λ text. view json.now ≡ string text.now) }
    ensures none { IfNone result (¬ IsText (view json.now)) }
{
    json.as_str()
}

/// The name in the body's metadata, if that is a text.
pub fn name_in(tree: &Value) -> Option<&str>
    ensures some { IfSome result (λ name.
        given_in metadata (codes "name") (view tree.now) ≡ Some (string name.now)) }
    ensures none { IfNone result ((name : List ℕ) →
        given_in metadata (codes "name") (view tree.now) ≢ Some (string name)) }
{
    text_of(given_in(tree, "metadata", "name")?)
}
