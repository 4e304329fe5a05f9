//! Cases of paths, requests and replies: a line of standard input is a question, and its answer a line of output.
#![tactic(auto)]

use http_front::{
    Length, Page, Reply, Request, Route, Taken, Verb, bad_reply, refusal_body, reply_bytes,
    route_of, take_request,
};
use lifecycle::ApiName;
use minor_version::{Blob, Memory, Text};
use std::alloc::{AllocError, Global};
use std::io;

/// The codes that replies have.
const CODES: [u16; 10] = [200, 201, 400, 404, 405, 409, 411, 413, 422, 507];

fn text_of(bytes: &[u8]) -> &str {
    str::from_utf8(bytes).unwrap_or("not UTF-8")
}

fn named(alloc: Global, word: &str, of: ApiName<'_>, rest: &str) -> Result<String, AllocError> {
    let group = text_of(of.group);
    let version = text_of(of.version);
    let resource = text_of(of.resource);
    format!(in alloc; "{word} [{group}] [{version}] [{resource}]{rest}")
}

fn inside(alloc: Global, of: ApiName<'_>, namespace: &str) -> Result<String, AllocError> {
    let rest = format!(in alloc; " [{namespace}]")?;
    named(alloc, "Inside", of, rest.as_str())
}

fn one(alloc: Global, of: ApiName<'_>, namespace: &str, name: &str) -> Result<String, AllocError> {
    let rest = format!(in alloc; " [{namespace}] [{name}]")?;
    named(alloc, "One", of, rest.as_str())
}

fn route_line(alloc: Global, route: Route<'_>) -> Result<String, AllocError> {
    match route {
        Route::Version => String::from_str(alloc, "Version"),
        Route::Metrics => String::from_str(alloc, "Metrics"),
        Route::Groups => String::from_str(alloc, "Groups"),
        Route::Group(group) => {
            let group = text_of(group);
            format!(in alloc; "Group [{group}]")
        }
        Route::Resources(group, version) => {
            let group = text_of(group);
            let version = text_of(version);
            format!(in alloc; "Resources [{group}] [{version}]")
        }
        Route::All(of) => named(alloc, "All", of, ""),
        Route::Inside(of, namespace) => inside(alloc, of, text_of(namespace)),
        Route::One(of, namespace, name) => one(alloc, of, text_of(namespace), text_of(name)),
        Route::Nowhere => String::from_str(alloc, "Nowhere"),
    }
}

/// The text with the ends of its lines shown.
fn shown(alloc: Global, text: &str) -> Result<String, AllocError> {
    let mut escaped = String::new(alloc);
    for c in text.chars() {
        match c {
            '\r' => match escaped.push_str("\\r") {
                Ok(()) => {}
                Err(fault) => return Err(fault),
            },
            '\n' => match escaped.push_str("\\n") {
                Ok(()) => {}
                Err(fault) => return Err(fault),
            },
            c => match escaped.push(c) {
                Ok(()) => {}
                Err(fault) => return Err(fault),
            },
        }
    }
    Ok(escaped)
}

/// What stands before the next bar, and what stands behind it.
fn part(text: &str) -> (&str, &str) {
    text.split_once('|').unwrap_or((text, ""))
}

/// The body of a page: its text, with a line feed where it is JSON.
fn body_of(alloc: Global, page: Page, text: &str) -> Result<Blob, Memory> {
    match page {
        Page::Json => {
            let text = format!(in alloc; "{text}\n")?;
            Blob::copy(alloc, text.as_bytes())
        }
        Page::Metrics => Blob::copy(alloc, text.as_bytes()),
    }
}

/// A reply as a question asks for it.
#[derive(Drop)]
struct Question<'a> {
    code: u16,
    page: Page,
    allow: &'a str,
    warning: &'a str,
    bare: bool,
    last: bool,
    body: &'a str,
}

fn page_of(word: &str) -> Page {
    if word == "metrics" {
        Page::Metrics
    } else {
        Page::Json
    }
}

/// The code, the page, the allowed methods, the warning, whether the reply is bare and whether it is last, and its body,
/// parted by bars.
fn asked(rest: &str) -> Question<'_> {
    let (code, rest) = part(rest);
    let (page, rest) = part(rest);
    let (allow, rest) = part(rest);
    let (warning, rest) = part(rest);
    let (bare, rest) = part(rest);
    let (last, body) = part(rest);
    Question {
        code: code.parse::<u16>().unwrap_or(0),
        page: page_of(page),
        allow,
        warning,
        bare: bare == "bare",
        last: last == "last",
        body,
    }
}

fn warning_of(alloc: Global, warning: &str) -> Result<Option<Text>, Memory> {
    if warning.is_empty() {
        return Ok(None);
    }
    let warning = Text::from_str(alloc, warning)?;
    Ok(Some(warning))
}

fn reply_with(alloc: Global, question: &Question<'_>) -> Result<Reply, Memory> {
    let body = body_of(alloc, question.page, question.body)?;
    let allow = Text::from_str(alloc, question.allow)?;
    let warning = warning_of(alloc, question.warning)?;
    Ok(Reply {
        code: question.code,
        page: question.page,
        allow,
        warning,
        body,
        bare: question.bare,
        last: question.last,
    })
}

fn sent(alloc: Global, reply: &Reply) -> Result<String, Memory> {
    if !CODES.contains(&reply.code) {
        let text = String::from_str(alloc, "no code of a reply")?;
        return Ok(text);
    }
    let bytes = reply_bytes(alloc, reply)?;
    let text = shown(alloc, text_of(bytes.bytes()))?;
    Ok(text)
}

/// The refusal with a code, a message and a reason, parted by bars.
fn refusal(alloc: Global, rest: &str) -> Result<String, Memory> {
    let (code, rest) = part(rest);
    let (reason, message) = part(rest);
    let body = refusal_body(alloc, code.parse::<u16>().unwrap_or(0), message, reason)?;
    let text = shown(alloc, text_of(body.bytes()))?;
    Ok(text)
}

fn replied(alloc: Global, rest: &str) -> Result<String, Memory> {
    let reply = reply_with(alloc, &asked(rest))?;
    sent(alloc, &reply)
}

fn badly_replied(alloc: Global) -> Result<String, Memory> {
    let reply = bad_reply(alloc)?;
    sent(alloc, &reply)
}

fn routed(alloc: Global, path: &str) -> Result<String, Memory> {
    let text = route_line(alloc, route_of(path.as_bytes()))?;
    Ok(text)
}

/// The byte that a letter behind a backslash stands for.
fn escaped(letter: u8) -> u8 {
    match letter {
        b'r' => b'\r',
        b'n' => b'\n',
        b't' => b'\t',
        _ => letter,
    }
}

/// The bytes that the text means, with its line ends and tabs escaped.
fn meant(alloc: Global, text: &str) -> Result<Vec<u8>, Memory> {
    let mut bytes = Vec::new(alloc);
    let mut is_escaped = false;
    for byte in text.as_bytes() {
        if *byte == b'\\' && !is_escaped {
            is_escaped = true;
            continue;
        }
        let byte = if is_escaped { escaped(*byte) } else { *byte };
        is_escaped = false;
        match bytes.push(byte) {
            Ok(()) => {}
            Err(_) => return Err(Memory),
        }
    }
    Ok(bytes)
}

/// The text between the two others, so many times.
fn repeated(alloc: Global, count: u16, unit: &str) -> Result<String, AllocError> {
    let mut text = String::new(alloc);
    for _ in 0..count {
        match text.push_str(unit) {
            Ok(()) => {}
            Err(fault) => return Err(fault),
        }
    }
    Ok(text)
}

fn verb_word(verb: Verb) -> &'static str {
    match verb {
        Verb::Get => "Get",
        Verb::Post => "Post",
        Verb::Put => "Put",
        Verb::Delete => "Delete",
        Verb::Patch => "Patch",
        Verb::Head => "Head",
        Verb::Other => "Other",
    }
}

fn length_text(alloc: Global, length: Length) -> Result<String, AllocError> {
    match length {
        Length::Given(number) => format!(in alloc; "{number}"),
        Length::Chunked => String::from_str(alloc, "chunked"),
    }
}

fn request_line(alloc: Global, request: &Request, used: usize) -> Result<String, AllocError> {
    let verb = verb_word(request.verb);
    let path = text_of(request.path.bytes());
    let query = text_of(request.query.bytes());
    let length = length_text(alloc, request.length)?;
    let body = shown(alloc, text_of(request.body.bytes()))?;
    let last = if request.last { "last" } else { "more" };
    let length = length.as_str();
    let body = body.as_str();
    format!(in alloc; "{verb} [{path}] [{query}] {length} [{body}] {last} {used}")
}

fn taken_line(alloc: Global, taken: &Taken) -> Result<String, AllocError> {
    match taken {
        Taken::More => String::from_str(alloc, "More"),
        Taken::Bad => String::from_str(alloc, "Bad"),
        Taken::Whole(request, used) => request_line(alloc, request, *used),
    }
}

/// What is taken from the bytes that the text means.
fn taken(alloc: Global, text: &str) -> Result<String, Memory> {
    let bytes = meant(alloc, text)?;
    let taken = take_request(alloc, bytes.as_slice())?;
    let line = taken_line(alloc, &taken)?;
    Ok(line)
}

/// The same of a count, a text, a text that stands so many times behind it, and a last text, parted by bars.
fn taken_of_many(alloc: Global, rest: &str) -> Result<String, Memory> {
    let (count, rest) = part(rest);
    let (before, rest) = part(rest);
    let (unit, after) = part(rest);
    let units = repeated(alloc, count.parse::<u16>().unwrap_or(0), unit)?;
    let units = units.as_str();
    let text = format!(in alloc; "{before}{units}{after}")?;
    taken(alloc, text.as_str())
}

fn unasked(alloc: Global) -> Result<String, Memory> {
    let text = String::from_str(alloc, "no question")?;
    Ok(text)
}

fn answer(alloc: Global, question: &str, rest: &str) -> Result<String, Memory> {
    match question {
        "path" => routed(alloc, rest),
        "reply" => replied(alloc, rest),
        "refusal" => refusal(alloc, rest),
        "bad" => badly_replied(alloc),
        "take" => taken(alloc, rest),
        "take-many" => taken_of_many(alloc, rest),
        _ => unasked(alloc),
    }
}

fn main(rt: HostRuntime) -> anyhow::Result<()> {
    let alloc = rt.alloc();
    for line in rt.lines(rt.alloc()) {
        let line = line?;
        let line = line.as_str();
        let (question, rest) = line.split_once(' ').unwrap_or((line, ""));
        let answered = answer(alloc, question, rest)?;
        println!(rt; "{line}: {}", answered.as_str())?;
    }
    Ok(())
}
