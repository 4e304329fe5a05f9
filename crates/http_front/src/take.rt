//! The next request of a stream of bytes.
ghost use Rattle.std.specs.Prelude.{◌≡◌, ◌≤◌, IfOk, length, take};
ghost use Rattle.http_front.specs.Heads.{HasNoHead, IsFrontOf, line_feeds};
ghost use Rattle.http_front.specs.Items.{IsTaken, HasOneAnswer, SplitsOnce, KeepsItems, KeepsItem, NeedsNoMore};
ghost use Rattle.http_front.specs.Told.{HasParts, HasSaid, IsReadAs, IsRequestWith};
ghost use Rattle.http_front.specs.Waits.{IsNext};

use crate::head::{front_of, line_feeds};
use crate::parts::{Said, body_size, number_said, read_head, said_of};
use crate::request::{Known, Next, Request, Taken};
use basis::Memory;
use httparse::spans::{EMPTY_HEADER_SPAN, HeaderSpan, RequestSpans};
use minor_version::Blob;
use std::alloc::Global;

/// The most bytes that empty lines and a head have.
pub const LONGEST_HEAD: usize = 16_384;

/// The most line feeds that they have.
pub const MOST_LINES: usize = 128;

/// The request at the front of a stream, if its head and its body are complete.
pub fn take_request(alloc: Global, buf: &[u8]) -> Result<Taken, Memory>
    ensures { IfOk result (λ taken. IsTaken buf.now taken) }
{
    match first_item(alloc, buf)? {
        Next::Waits(_) => Ok(Taken::More),
        Next::Bad => Ok(Taken::Bad),
        Next::Whole(request, used) => Ok(Taken::Whole(request, used)),
    }
}

/// The same, with what is known of the stream while it has no request.
pub fn first_item(alloc: Global, buf: &[u8]) -> Result<Next, Memory>
    ensures { IfOk result (λ next. IsNext buf.now next) }
{
    let near = near_part(buf);
    match front_of(near) {
        Some((front, head)) => take_with_head(alloc, buf, front, head),
        None => Ok(without_head(buf, near)),
    }
}

// The bytes in which a head must end.
fn near_part(buf: &[u8]) -> &[u8]
    ensures { result.now ≡ take 16384 buf.now }
{
    if buf.len() <= LONGEST_HEAD {
        return buf;
    }
    buf.split_at(LONGEST_HEAD).0
}

// What is taken where these bytes hold no whole head.
fn without_head(buf: &[u8], near: &[u8]) -> Next
    requires near { near.now ≡ take 16384 buf.now }
    requires none { HasNoHead near.now }
    ensures { IsNext buf.now result }
{
    if buf.len() >= LONGEST_HEAD {
        return Next::Bad;
    }
    let lines = line_feeds(near);
    if lines > MOST_LINES {
        return Next::Bad;
    }
    Next::Waits(Known::NoHead {
        looked: buf.len(),
        lines,
    })
}

fn take_with_head(alloc: Global, buf: &[u8], front: &[u8], head: &[u8]) -> Result<Next, Memory>
    requires front { IsFrontOf buf.now front.now head.now }
    requires short { length front.now ≤ 16384 }
    ensures { IfOk result (λ next. IsNext buf.now next) }
{
    if line_feeds(front) > MOST_LINES {
        return Ok(Next::Bad);
    }
    let mut spans = [EMPTY_HEADER_SPAN; MOST_LINES];
    match read_head(head, &mut spans) {
        Some(found) => {
            let lines = spans.split_at(found.headers).0;
            take_with_parts(alloc, buf, front, head, lines, found)
        }
        None => Ok(Next::Bad),
    }
}

fn take_with_parts(
    alloc: Global,
    buf: &[u8],
    front: &[u8],
    head: &[u8],
    lines: &[HeaderSpan],
    found: RequestSpans,
) -> Result<Next, Memory>
    requires front { IsFrontOf buf.now front.now head.now }
    requires short { length front.now ≤ 16384 }
    requires few { line_feeds front.now ≤ 128 }
    requires within { HasParts head.now lines.now found }
    requires read { IsReadAs head.now lines.now found }
    ensures { IfOk result (λ next. IsNext buf.now next) }
{
    match number_said(alloc, head, lines)? {
        Some(number) => {
            let said = said_of(alloc, head, lines, found, number)?;
            take_body(alloc, buf, front, &said)
        }
        None => Ok(Next::Bad),
    }
}

fn take_body(alloc: Global, buf: &[u8], front: &[u8], said: &Said<'_>) -> Result<Next, Memory>
    requires { HasSaid buf.now front.now said.now }
    ensures { IfOk result (λ next. IsNext buf.now next) }
{
    let rest = buf.split_at(front.len()).1;
    let size = body_size(said.length);
    if rest.len() < size {
        return Ok(Next::Waits(Known::Size(front.len() + size)));
    }
    let (body, behind) = rest.split_at(size);
    let request = request_with(alloc, said, body)?;
    Ok(Next::Whole(request, buf.len() - behind.len()))
}

fn request_with(alloc: Global, said: &Said<'_>, body: &[u8]) -> Result<Request, Memory>
    ensures { IfOk result (λ request. IsRequestWith said.now body.now request) }
{
    let path = Blob::copy(alloc, said.path)?;
    let query = Blob::copy(alloc, said.query)?;
    let body = Blob::copy(alloc, body)?;
    Ok(Request {
        verb: said.verb,
        path,
        query,
        length: said.length,
        body,
        last: said.last,
    })
}

/// One answer to what can be taken is right.
pub fn stream_has_one_answer(stream: &[u8])
    ensures { HasOneAnswer stream.now }
{
    let _stream = stream;
}

/// A stream splits into items in at most one way.
pub fn stream_splits_once(stream: &[u8])
    ensures { SplitsOnce stream.now }
{
    let _stream = stream;
}

/// The items of a stream stay when more bytes come, and the further ones stand behind them.
pub fn stream_keeps_items(stream: &[u8])
    ensures first { KeepsItem stream.now }
    ensures all { KeepsItems stream.now }
{
    let _stream = stream;
}

/// A request can be taken as soon as its last byte is there.
pub fn request_needs_no_more(stream: &[u8])
    ensures { NeedsNoMore stream.now }
{
    let _stream = stream;
}
