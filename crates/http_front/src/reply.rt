ghost use Rattle.std.specs.Prelude.{◌≡◌, ◌<◌, ◌^◌, ◌++◌, IfOk, Contains, codes, decimal, length, string_bytes};
ghost use Rattle.http_header.specs.FieldValue.{IsVisibleAscii};
ghost use Rattle.http.specs.StatusCode.{IsStatusCode};
ghost use Rattle.http_front.specs.Replies.{HasPlainTexts, IsBadReply, ReadsBack, allow_lines, close_lines, content_type, first_lines, further_lines, head_lines, line_end, lines_text, phrase, reply_codes, reply_text, warning_lines};

use crate::refusal::refusal_body;
use basis::Memory;
use http::StatusCode;
use minor_version::{Blob, Text};
use std::alloc::{AllocError, Global};

/// The kind of page in a reply's body.
#[derive(Clone, Copy, Debug, PartialEq, Eq)]
pub enum Page {
    /// A JSON document and a line feed.
    Json,
    /// The page of the gates' values, in the format of Prometheus.
    Metrics,
}

/// One reply.
#[derive(Debug, Drop)]
pub struct Reply {
    pub code: u16,
    pub page: Page,
    /// The methods that the `Allow` line names; empty where there is no such line.
    pub allow: Text,
    /// What the `Warning` line says, where there is one.
    pub warning: Option<Text>,
    /// The whole body, also where it isn't sent.
    pub body: Blob,
    /// Whether the body is left out, as for HEAD.
    pub bare: bool,
    /// Whether the connection closes after the reply.
    pub last: bool,
}

fn phrase_of(code: u16) -> &'static str
    requires { IsStatusCode code }
    ensures value { result.now ≡ phrase code }
    ensures visible { IsVisibleAscii result.now }
{
    match StatusCode::from_u16(code) {
        Ok(status) => status.canonical_reason().unwrap_or(""),
        Err(_) => unreachable!(),
    }
}

fn content_type(page: Page) -> &'static str
    ensures { result.now ≡ content_type page }
{
    match page {
        Page::Json => "application/json",
        Page::Metrics => "text/plain; version=0.0.4",
    }
}

// The length of these bytes, which a machine's word holds.
fn length_of(bytes: &[u8]) -> usize
    ensures value { result ≡ length bytes.now }
    ensures bound { length bytes.now < 2 ^ 64 }
{
    bytes.len()
}

// A line of the head that begins with this word.
fn line_text(alloc: Global, word: &str, value: &str) -> Result<String, AllocError>
    ensures { IfOk result (λ s. string_bytes s ≡ word.now ++ (value.now ++ line_end)) }
{
    format!(in alloc; "{word}{value}\r\n")
}

fn allow_text(alloc: Global, allow: &str) -> Result<String, AllocError>
    ensures { IfOk result (λ s. string_bytes s ≡ lines_text (allow_lines allow.now)) }
{
    if allow.is_empty() {
        Ok(String::new(alloc))
    } else {
        line_text(alloc, "Allow: ", allow)
    }
}

fn warning_text(alloc: Global, warning: &Option<Text>) -> Result<String, AllocError>
    ensures { IfOk result (λ s. string_bytes s ≡ lines_text (warning_lines warning.now)) }
{
    match warning {
        Some(warning) => line_text(alloc, "Warning: ", warning.as_str()),
        None => Ok(String::new(alloc)),
    }
}

fn close_text(last: bool) -> &'static str
    ensures { result.now ≡ lines_text (close_lines last) }
{
    if last { "Connection: close\r\n" } else { "" }
}

fn status_text(alloc: Global, code: u16, phrase: &str) -> Result<String, AllocError>
    ensures { IfOk result (λ s. string_bytes s
        ≡ codes "HTTP/1.1 " ++ (decimal code ++ (codes " " ++ (phrase.now ++ line_end)))) }
{
    format!(in alloc; "HTTP/1.1 {code} {phrase}\r\n")
}

fn length_text(alloc: Global, length: usize) -> Result<String, AllocError>
    ensures { IfOk result (λ s. string_bytes s ≡ codes "Content-Length: " ++ (decimal length ++ line_end)) }
{
    format!(in alloc; "Content-Length: {length}\r\n")
}

// The lines that every head has.
fn first_text(alloc: Global, code: u16, page: Page, body: &[u8]) -> Result<String, AllocError>
    requires { IsStatusCode code }
    ensures { IfOk result (λ s. string_bytes s ≡ lines_text (first_lines code page body.now)) }
{
    let mut text = status_text(alloc, code, phrase_of(code))?;
    let kind = line_text(alloc, "Content-Type: ", content_type(page))?;
    text.push_str(kind.as_str())?;
    let length = length_text(alloc, length_of(body))?;
    text.push_str(length.as_str())?;
    Ok(text)
}

// The lines that a head may have.
fn further_text(alloc: Global, reply: &Reply) -> Result<String, AllocError>
    ensures { IfOk result (λ s. string_bytes s ≡ lines_text (further_lines reply.now)) }
{
    let mut text = allow_text(alloc, reply.allow.as_str())?;
    let warning = warning_text(alloc, &reply.warning)?;
    text.push_str(warning.as_str())?;
    text.push_str(close_text(reply.last))?;
    Ok(text)
}

// The lines of the head and the empty line behind them.
fn head_text(alloc: Global, reply: &Reply) -> Result<String, AllocError>
    requires { IsStatusCode reply.now.code }
    ensures { IfOk result (λ s. string_bytes s ≡ lines_text (head_lines reply.now) ++ line_end) }
{
    let mut text = first_text(alloc, reply.code, reply.page, reply.body.bytes())?;
    let further = further_text(alloc, reply)?;
    text.push_str(further.as_str())?;
    text.push_str("\r\n")?;
    Ok(text)
}

// The bytes, one list behind the other.
fn joined(alloc: Global, head: &[u8], body: &[u8]) -> Result<Vec<u8>, AllocError>
    ensures { IfOk result (λ v. v.items ≡ head.now ++ body.now) }
{
    let mut bytes = Vec::from_slice(alloc, head)?;
    bytes.extend_from_slice(body)?;
    Ok(bytes)
}

/// The bytes of the reply, as they are sent.
pub fn reply_bytes(alloc: Global, reply: &Reply) -> Result<Blob, Memory>
    requires { Contains reply_codes reply.now.code }
    ensures { IfOk result (λ b. b ≡ reply_text reply.now) }
{
    let head = head_text(alloc, reply)?;
    if reply.bare {
        return Blob::copy(alloc, head.as_bytes());
    }
    let bytes = joined(alloc, head.as_bytes(), reply.body.bytes())?;
    Blob::copy(alloc, bytes.as_slice())
}

/// The reply to a head that can't be read. The connection closes after it.
pub fn bad_reply(alloc: Global) -> Result<Reply, Memory>
    ensures { IfOk result (λ reply. IsBadReply reply) }
{
    let body = refusal_body(alloc, 400, "the request is not HTTP/1.1", "BadRequest")?;
    let allow = Text::from_str(alloc, "")?;
    Ok(Reply {
        code: 400,
        page: Page::Json,
        allow,
        warning: None,
        body,
        bare: false,
        last: true,
    })
}

/// No reply is split wrong: a client that reads lines up to the first empty one, and the body behind it, finds
/// those of the reply, if its `Allow` and `Warning` texts have no line breaks.
pub fn reply_reads_back(reply: &Reply)
    requires code { Contains reply_codes reply.now.code }
    requires plain { HasPlainTexts reply.now }
    ensures { ReadsBack reply.now }
{
    let _phrase = phrase_of(reply.code);
    let _length = length_of(reply.body.bytes());
}
