//! The next item of a stream that grows, without a second look at what was looked at.
ghost use Rattle.std.specs.Prelude.{◌≡◌, ℕ, List, [], ◌∷◌, IfOk, IfSome};
ghost use Rattle.http_front.specs.Heads.{line_feeds};
ghost use Rattle.http_front.specs.Waits.{IsKnown, IsLookedAt, IsNext, StaysKnown};

use crate::head::ends_head;
use crate::request::{Known, Next};
use crate::take::{LONGEST_HEAD, MOST_LINES, first_item};
use basis::Memory;
use std::alloc::Global;

/// What is known of a stream before it is looked at.
pub fn nothing_known() -> Known
    ensures { (stream : List ℕ) → IsKnown stream result }
{
    Known::NoHead {
        looked: 0,
        lines: 0,
    }
}

/// The next item of a stream of which this is known. While there is none, only the bytes behind the known ones are
/// looked at.
pub fn next_item(alloc: Global, buf: &[u8], known: Known) -> Result<Next, Memory>
    requires { IsKnown buf.now known }
    ensures { IfOk result (λ next. IsNext buf.now next) }
{
    match still_waiting(buf, known) {
        Some(known) => Ok(Next::Waits(known)),
        None => first_item(alloc, buf),
    }
}

// What is known now, if it shows that no item has come.
fn still_waiting(buf: &[u8], known: Known) -> Option<Known>
    requires { IsKnown buf.now known }
    ensures { IfSome result (λ now. IsNext buf.now (Next.Waits now)) }
{
    match known {
        Known::NoHead { looked, lines } => look_on(buf, looked, lines),
        Known::Size(size) => wait_for(buf, size),
    }
}

// Looks at the bytes behind the first ones.
fn look_on(buf: &[u8], looked: usize, lines: usize) -> Option<Known>
    requires { IsLookedAt buf.now looked lines }
    ensures { IfSome result (λ now. IsNext buf.now (Next.Waits now)) }
{
    if buf.len() >= LONGEST_HEAD {
        return None;
    }
    let mut lines = lines;
    for at in looked..buf.len() {
        lines += feeds_of(buf[at]);
        if lines > MOST_LINES {
            return None;
        }
        if ends_head(buf.split_at(at + 1).0) {
            return None;
        }
    }
    Some(Known::NoHead {
        looked: buf.len(),
        lines,
    })
}

fn feeds_of(byte: u8) -> usize
    ensures { result ≡ line_feeds (byte ∷ []) }
{
    if byte == b'\n' { 1 } else { 0 }
}

// Compares the length with that of the head and its body.
fn wait_for(buf: &[u8], size: usize) -> Option<Known>
    requires { IsKnown buf.now (Known.Size size) }
    ensures { IfSome result (λ now. IsNext buf.now (Next.Waits now)) }
{
    if buf.len() < size {
        return Some(Known::Size(size));
    }
    None
}

/// What is known of a stream stays so when more bytes come.
pub fn stream_stays_known(stream: &[u8])
    ensures { StaysKnown stream.now }
{
    let _stream = stream;
}
