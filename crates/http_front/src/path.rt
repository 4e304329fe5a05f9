//! How a path is cut into its segments, and the texts that stand in them.
ghost use Rattle.std.specs.Prelude.{◌≡◌, ◌≢◌, ◌<◌, ◌==◌, ◌↔◌, ◌++◌, ℕ, List, All, IfSome, IfNone, IsTrue, length, position};
ghost use Rattle.http_front.specs.Paths.{IsNamespace, IsObjectName, EndsSegment, IsNextSegment};

use basis::{is_dotted_labels, is_label};

/// The greatest length of a namespace, in bytes.
const LONGEST_NAMESPACE: usize = 63;

/// The greatest length of an object's name, in bytes.
const LONGEST_NAME: usize = 253;

fn slash_at(text: &[u8]) -> Option<usize>
    ensures place { result ≡ position (λ c. c == 47) text.now }
    ensures bound { IfSome result (λ at. at < length text.now) }
{
    text.iter().position(|byte| *byte == b'/')
}

// What stands before the first slash, and the rest from it on.
fn cut_at_slash<'a>(text: &'a [u8]) -> (&'a [u8], &'a [u8])
    ensures whole { text.now ≡ result.0.now ++ result.1.now }
    ensures plain { All (λ c. c ≢ 47) result.0.now }
    ensures ends { EndsSegment result.1.now }
{
    match slash_at(text) {
        Some(at) => text.split_at(at),
        None => (text, &[]),
    }
}

/// The first segment of a path, and the path of those behind it.
pub fn next_segment<'a>(path: &'a [u8]) -> Option<(&'a [u8], &'a [u8])>
    ensures some { IfSome result (λ r. IsNextSegment path.now r.0.now r.1.now) }
    ensures none { IfNone result ((segment rest : List ℕ) → ¬ IsNextSegment path.now segment rest) }
{
    let [b'/', text @ ..] = path else {
        return None;
    };
    let (segment, rest) = cut_at_slash(text);
    if segment.is_empty() {
        None
    } else {
        Some((segment, rest))
    }
}

/// Whether the text is that of a namespace.
pub fn is_namespace(text: &[u8]) -> bool
    ensures { IsTrue result ↔ IsNamespace text.now }
{
    text.len() <= LONGEST_NAMESPACE && is_label(text)
}

/// Whether the text is an object's name.
pub fn is_object_name(text: &[u8]) -> bool
    ensures { IsTrue result ↔ IsObjectName text.now }
{
    text.len() <= LONGEST_NAME && is_dotted_labels(text)
}
