//! Requests, as lines tell them.
use basis::Memory;
use http_front::{Length, Request, Verb};
use minor_version::Blob;
use std::alloc::Global;

/// The longest body that a connection is read on after.
const LONGEST_BODY: u64 = 65_536;

fn verb(word: &str) -> Verb {
    match word {
        "GET" => Verb::Get,
        "POST" => Verb::Post,
        "PUT" => Verb::Put,
        "DELETE" => Verb::Delete,
        "PATCH" => Verb::Patch,
        "HEAD" => Verb::Head,
        _ => Verb::Other,
    }
}

/// The length that the word tells; where it is no number, that of the body.
fn length(word: &str, body: &str) -> Length {
    if word == "chunked" {
        return Length::Chunked;
    }
    Length::Given(word.parse::<u64>().unwrap_or(body.len() as u64))
}

/// Whether the length makes a request the last of its connection.
fn ends(length: Length) -> bool {
    match length {
        Length::Given(number) => number > LONGEST_BODY,
        Length::Chunked => true,
    }
}

/// What stands before the next space, and what stands behind it.
fn word(text: &str) -> (&str, &str) {
    text.split_once(' ').unwrap_or((text, ""))
}

/// The request with this method, target, length and body, parted by spaces. The word `last` before them says that the
/// connection closes after the reply.
pub fn request(alloc: Global, line: &str) -> Result<Request, Memory> {
    let closes = line.starts_with("last ");
    let (method, rest) = word(line.strip_prefix("last ").unwrap_or(line));
    let (target, rest) = word(rest);
    let (size, body) = word(rest);
    let (path, query) = target.split_once('?').unwrap_or((target, ""));
    let length = length(size, body);
    Ok(Request {
        verb: verb(method),
        path: Blob::copy(alloc, path.as_bytes())?,
        query: Blob::copy(alloc, query.as_bytes())?,
        length,
        body: Blob::copy(alloc, body.as_bytes())?,
        last: closes || ends(length),
    })
}
