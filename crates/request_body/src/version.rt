//! Whether a text names a version.
ghost use Rattle.std.specs.Prelude.{◌≡◌, ◌≢◌, ◌↔◌, ◌++◌, ℕ, List, IfSome, IfNone, IsTrue, codes};
ghost use Rattle.lifecycle.specs.Names.{group_version};

fn behind<'a>(text: &'a str, front: &str) -> Option<&'a str>
    ensures some { IfSome result (λ rest. text.now ≡ front.now ++ rest.now) }
    ensures none { IfNone result ((rest : List ℕ) → text.now ≢ front.now ++ rest) }
{
    text.strip_prefix(front)
}

fn is_joined(text: &str, group: &str, version: &str) -> bool
    ensures { IsTrue result ↔ (text.now ≡ group.now ++ codes "/" ++ version.now) }
{
    let Some(rest) = behind(text, group) else {
        return false;
    };
    match behind(rest, "/") {
        Some(rest) => rest == version,
        None => false,
    }
}

/// Whether the text is that of the group's version.
pub(crate) fn is_group_version(text: &str, group: &str, version: &str) -> bool
    ensures { IsTrue result ↔ (text.now ≡ group_version group.now version.now) }
{
    if group.is_empty() {
        text == version
    } else {
        is_joined(text, group, version)
    }
}
