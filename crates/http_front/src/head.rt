//! Where the head of a request ends in a stream of bytes.
ghost use Rattle.std.specs.Prelude.{◌≡◌, ◌<◌, ◌≤◌, ◌↔◌, ◌++◌, ℕ, List, IfSome, IfNone, IsTrue, length, take, drop};
ghost use Rattle.httparse.specs.Grammar.{LineEnd, print_end, print_blank};
ghost use Rattle.http_front.specs.Heads.{BeginsEmptyLine, EndsHead, HasNoHead, IsFirstEnd, IsFrontOf, line_feeds};

// The length of the empty line that the bytes begin with.
fn empty_line(bytes: &[u8]) -> Option<usize>
    ensures some { IfSome result
        (λ n. (end : LineEnd) × (bytes.now ≡ print_end end ++ drop n bytes.now)) }
    ensures bound { IfSome result (λ n. (0 < n) × (n ≤ length bytes.now)) }
    ensures none { IfNone result (¬ (BeginsEmptyLine bytes.now)) }
{
    if bytes.starts_with(b"\n") {
        return Some(1);
    }
    if bytes.starts_with(b"\r\n") {
        return Some(2);
    }
    None
}

// The length of all the empty lines that the bytes begin with.
fn skipped_len(bytes: &[u8]) -> usize
    ensures within { result ≤ length bytes.now }
    ensures blank { (skipped : List LineEnd) × (bytes.now ≡ print_blank skipped ++ drop result bytes.now) }
    ensures done { ¬ (BeginsEmptyLine (drop result bytes.now)) }
{
    let mut at = 0;
    while let Some(len) = empty_line(bytes.split_at(at).1) {
        at += len;
    }
    at
}

/// Whether a line feed with an empty line behind it stands last.
pub fn ends_head(bytes: &[u8]) -> bool
    ensures { IsTrue result ↔ EndsHead bytes.now }
{
    if bytes.ends_with(b"\n\n") {
        return true;
    }
    bytes.ends_with(b"\n\r\n")
}

// The length of the head that the text, which begins with no empty line, begins with.
fn head_len(text: &[u8]) -> Option<usize>
    ensures some { IfSome result (λ n. (n ≤ length text.now) × IsFirstEnd text.now n) }
    ensures none { IfNone result ((m : ℕ) → m ≤ length text.now → ¬ (EndsHead (take m text.now))) }
{
    for at in 0..text.len() {
        if ends_head(text.split_at(at + 1).0) {
            return Some(at + 1);
        }
    }
    None
}

/// The empty lines and the head that the bytes begin with, and the head alone. None if no head has ended.
pub fn front_of<'a>(bytes: &'a [u8]) -> Option<(&'a [u8], &'a [u8])>
    ensures some { IfSome result (λ r. IsFrontOf bytes.now r.0.now r.1.now) }
    ensures none { IfNone result (HasNoHead bytes.now) }
{
    let start = skipped_len(bytes);
    let text = bytes.split_at(start).1;
    match head_len(text) {
        Some(len) => Some((bytes.split_at(start + len).0, text.split_at(len).0)),
        None => None,
    }
}

/// How many line feeds there are.
pub fn line_feeds(bytes: &[u8]) -> usize
    ensures { result ≡ line_feeds bytes.now }
{
    bytes.iter().filter(|byte| **byte == b'\n').count()
}
