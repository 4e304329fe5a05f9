//! What the head of a request says of it.
ghost use Rattle.std.specs.Prelude.{◌≡◌, ◌<◌, ◌≤◌, ◌==◌, ℕ, List, [], None, IfOk, IfSome, IfNone, All, codes, length, map, not, position, take, true};
ghost use Rattle.std.specs.Char.{is_ascii_digit};
ghost use Rattle.std.specs.List.{list_all};
ghost use Rattle.std.specs.Str.Parse.{digits_value};
ghost use Rattle.httparse.specs.Grammar.{RequestHead, ReadsRequest};
ghost use Rattle.httparse.specs.Spans.{IsHeaderWithin, header_bytes};
ghost use Rattle.http1.specs.Fields.{elements_named, has_option, values_named};
ghost use Rattle.http_front.specs.Heads.{line_feeds};
ghost use Rattle.http_front.specs.Said.{body_size, is_last, is_length_text, is_unread, lawful_length, length_said, path_part, query_part, verb_of};
ghost use Rattle.http_front.specs.Told.{HasParts, IsReadAs, IsTold, number_at, values_at};

use crate::request::{Length, Verb};
use basis::Memory;
use http1::fields::KnownFields;
use http1::text::eq_ignore_case;
use httparse::Status;
use httparse::spans::{HeaderSpan, RequestSpans, parse_request};
use std::alloc::Global;

/// The longest body that is read.
const LONGEST_BODY: u64 = 65_536;

/// The most `Content-Length` lines that a head has.
const MOST_LENGTHS: usize = 1;

/// The most digits that a length has.
const MOST_DIGITS: usize = 19;

/// What a head says of its request.
#[derive(Debug, Drop)]
pub struct Said<'a> {
    pub verb: Verb,
    pub path: &'a [u8],
    pub query: &'a [u8],
    pub length: Length,
    pub last: bool,
}

fn verb_of(method: &[u8]) -> Verb
    ensures { result ≡ verb_of method.now }
{
    if method == b"GET".as_slice() {
        Verb::Get
    } else if method == b"POST".as_slice() {
        Verb::Post
    } else if method == b"PUT".as_slice() {
        Verb::Put
    } else if method == b"DELETE".as_slice() {
        Verb::Delete
    } else if method == b"PATCH".as_slice() {
        Verb::Patch
    } else if method == b"HEAD".as_slice() {
        Verb::Head
    } else {
        Verb::Other
    }
}

fn question_at(target: &[u8]) -> Option<usize>
    ensures place { result ≡ position (λ c. c == 63) target.now }
    ensures bound { IfSome result (λ at. at < length target.now) }
{
    target.iter().position(|byte| *byte == b'?')
}

// The path and the query of the target.
fn cut_at_question<'a>(target: &'a [u8]) -> (&'a [u8], &'a [u8])
    ensures path { result.0.now ≡ path_part target.now }
    ensures query { result.1.now ≡ query_part target.now }
{
    match question_at(target) {
        Some(at) => (target.split_at(at).0, target.split_at(at + 1).1),
        None => (target, &[]),
    }
}

// The values of the lines with this name.
fn values_named<'a>(
    alloc: Global,
    head: &'a [u8],
    lines: &[HeaderSpan],
    name: &[u8],
) -> Result<Vec<&'a [u8]>, Memory>
    requires { All (IsHeaderWithin (length head.now)) lines.now }
    ensures { IfOk result (λ v. map (λ r. r.now) v.items
        ≡ values_named name.now (map (header_bytes head.now) lines.now)) }
{
    let mut values = Vec::new(alloc);
    for line in lines {
        if eq_ignore_case(line.name.of(head), name) {
            match values.push(line.value.of(head)) {
                Ok(()) => {}
                Err(_) => return Err(Memory),
            }
        }
    }
    Ok(values)
}

// Whether `close` is a word of a `Connection` line.
fn says_close(head: &[u8], lines: &[HeaderSpan]) -> bool
    requires { All (IsHeaderWithin (length head.now)) lines.now }
    ensures { result ≡ has_option (codes "close")
        (elements_named (codes "connection") (map (header_bytes head.now) lines.now)) }
{
    KnownFields::from_spans(head, lines).close
}

fn are_digits(text: &[u8]) -> bool
    ensures { result ≡ list_all is_ascii_digit text.now }
{
    text.iter().all(|byte| byte.is_ascii_digit())
}

fn is_length_text(value: &[u8]) -> bool
    ensures { result ≡ is_length_text value.now }
{
    !value.is_empty() && value.len() <= MOST_DIGITS && are_digits(value)
}

// The number that the digits write.
fn number_of(digits: &[u8]) -> u64
    requires { is_length_text digits.now ≡ true }
    ensures { result ≡ digits_value 10 digits.now }
{
    let mut number: u64 = 0;
    for digit in digits {
        number = number * 10 + u64::from(*digit - b'0');
    }
    number
}

// The length that the values of the `Content-Length` lines tell, if they are lawful.
fn lawful_length(values: &[&[u8]]) -> Option<u64>
    ensures { result ≡ lawful_length (map (λ r. r.now) values.now) }
{
    if values.is_empty() {
        return Some(0);
    }
    if values.len() > MOST_LENGTHS {
        return None;
    }
    let value = values[0];
    if is_length_text(value) {
        Some(number_of(value))
    } else {
        None
    }
}

fn length_said(chunked: bool, number: u64) -> Length
    ensures { result ≡ length_said chunked number }
{
    if chunked {
        Length::Chunked
    } else {
        Length::Given(number)
    }
}

fn is_unread(length: Length) -> bool
    ensures { result ≡ is_unread length }
{
    match length {
        Length::Chunked => true,
        Length::Given(number) => number > LONGEST_BODY,
    }
}

/// How many bytes behind the head are the body.
pub fn body_size(length: Length) -> usize
    ensures value { result ≡ body_size length }
    ensures small { result ≤ 65536 }
{
    match length {
        Length::Chunked => 0,
        Length::Given(number) => if number > LONGEST_BODY {
            0
        } else {
            number as usize
        },
    }
}

fn is_last(length: Length, minor: u8, close: bool) -> bool
    ensures { result ≡ is_last length minor close }
{
    is_unread(length) || minor == 0 || close
}

/// The parts of the head, if `httparse` reads it up to its last byte.
pub fn read_head(head: &[u8], spans: &mut [HeaderSpan]) -> Option<RequestSpans>
    requires { line_feeds head.now ≤ length spans.old }
    ensures within { IfSome result (λ found. HasParts head.now (take found.headers spans.new) found) }
    ensures count { IfSome result (λ found. found.headers ≤ length spans.new) }
    ensures some { IfSome result (λ found. IsReadAs head.now (take found.headers spans.new) found) }
    ensures none { IfNone result ((tree : RequestHead) → ¬ (ReadsRequest head.now tree [])) }
{
    match parse_request(head, spans) {
        Ok(Status::Complete(found)) => {
            if found.len == head.len() {
                Some(found)
            } else {
                None
            }
        }
        Ok(Status::Partial) => None,
        Err(_) => None,
    }
}

/// The number that the `Content-Length` lines tell, 0 without one. None if they aren't lawful.
pub fn number_said(alloc: Global, head: &[u8], lines: &[HeaderSpan]) -> Result<Option<u64>, Memory>
    requires { All (IsHeaderWithin (length head.now)) lines.now }
    ensures { IfOk result (λ o. o ≡ number_at head.now lines.now) }
{
    let values = values_named(alloc, head, lines, b"content-length")?;
    Ok(lawful_length(values.as_slice()))
}

fn is_chunked(alloc: Global, head: &[u8], lines: &[HeaderSpan]) -> Result<bool, Memory>
    requires { All (IsHeaderWithin (length head.now)) lines.now }
    ensures { IfOk result (λ b. b
        ≡ not (length (values_at head.now lines.now (codes "transfer-encoding")) == 0)) }
{
    let values = values_named(alloc, head, lines, b"transfer-encoding")?;
    Ok(!values.as_slice().is_empty())
}

/// What the head says, with these parts and lines, of which those of its length tell this number.
pub fn said_of<'a>(
    alloc: Global,
    head: &'a [u8],
    lines: &[HeaderSpan],
    found: RequestSpans,
    number: u64,
) -> Result<Said<'a>, Memory>
    requires { HasParts head.now lines.now found }
    ensures { IfOk result (λ said. IsTold head.now lines.now found number said) }
{
    let method = found.method.of(head);
    let target = found.path.of(head);
    let chunked = is_chunked(alloc, head, lines)?;
    let close = says_close(head, lines);
    let length = length_said(chunked, number);
    let parts = cut_at_question(target);
    Ok(Said {
        verb: verb_of(method),
        path: parts.0,
        query: parts.1,
        length,
        last: is_last(length, found.version, close),
    })
}
