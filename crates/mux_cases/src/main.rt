//! Cases of connections: a line of standard input is a script of events, and what is taken after each event is its answer.
#![tactic(auto)]

use basis::Memory;
use conn_mux::{Incoming, Mux};
use http_front::{Request, Verb};
use std::alloc::{AllocError, Global};

/// More items than a script completes by one event.
const MOST_ITEMS: u16 = 1_000;

fn text_of(bytes: &[u8]) -> &str {
    str::from_utf8(bytes).unwrap_or("not UTF-8")
}

fn verb_word(verb: Verb) -> &'static str {
    match verb {
        Verb::Get => "Get",
        Verb::Post => "Post",
        Verb::Put => "Put",
        Verb::Delete => "Delete",
        Verb::Patch => "Patch",
        Verb::Head => "Head",
        Verb::Other => "Other",
    }
}

fn request_text(alloc: Global, c: u32, request: &Request) -> Result<String, AllocError> {
    let verb = verb_word(request.verb);
    let path = text_of(request.path.bytes());
    let body = text_of(request.body.bytes());
    let last = if request.last { " last" } else { "" };
    format!(in alloc; " {c} {verb} [{path}] [{body}]{last}")
}

fn incoming_text(alloc: Global, c: u32, incoming: &Incoming) -> Result<String, AllocError> {
    match incoming {
        Incoming::Whole(request) => request_text(alloc, c, request),
        Incoming::Bad => format!(in alloc; " {c} Bad"),
    }
}

/// Writes what was taken.
fn note(alloc: Global, out: &mut String, c: u32, incoming: &Incoming) -> Result<(), Memory> {
    let text = incoming_text(alloc, c, incoming)?;
    out.push_str(text.as_str())?;
    Ok(())
}

/// Takes and writes the next item. False if there is none.
fn take_one(alloc: Global, mux: &mut Mux, out: &mut String, c: u32) -> Result<bool, Memory> {
    match mux.take(c)? {
        Some(incoming) => {
            note(alloc, out, c, &incoming)?;
            Ok(true)
        }
        None => Ok(false),
    }
}

fn take_all(alloc: Global, mux: &mut Mux, out: &mut String, c: u32) -> Result<(), Memory> {
    for _ in 0..MOST_ITEMS {
        match take_one(alloc, mux, out, c) {
            Ok(true) => {}
            Ok(false) => return Ok(()),
            Err(_) => return Err(Memory),
        }
    }
    Ok(())
}

/// The byte that a letter behind a backslash stands for.
fn escaped(letter: u8) -> u8 {
    match letter {
        b'r' => b'\r',
        b'n' => b'\n',
        _ => letter,
    }
}

/// The bytes that the text means, with its line ends escaped.
fn meant(alloc: Global, text: &str) -> Result<Vec<u8>, Memory> {
    let mut bytes = Vec::new(alloc);
    let mut is_escaped = false;
    for byte in text.as_bytes() {
        if *byte == b'\\' && !is_escaped {
            is_escaped = true;
            continue;
        }
        let byte = if is_escaped { escaped(*byte) } else { *byte };
        is_escaped = false;
        match bytes.push(byte) {
            Ok(()) => {}
            Err(_) => return Err(Memory),
        }
    }
    Ok(bytes)
}

fn bring(
    alloc: Global,
    mux: &mut Mux,
    out: &mut String,
    c: u32,
    bytes: &[u8],
) -> Result<(), Memory> {
    mux.piece(c, bytes)?;
    take_all(alloc, mux, out, c)
}

fn bring_text(
    alloc: Global,
    mux: &mut Mux,
    out: &mut String,
    c: u32,
    text: &str,
) -> Result<(), Memory> {
    let bytes = meant(alloc, text)?;
    bring(alloc, mux, out, c, bytes.as_slice())
}

fn bring_each(
    alloc: Global,
    mux: &mut Mux,
    out: &mut String,
    c: u32,
    bytes: &[u8],
) -> Result<(), Memory> {
    for byte in bytes {
        match bring(alloc, mux, out, c, &[*byte]) {
            Ok(()) => {}
            Err(_) => return Err(Memory),
        }
    }
    Ok(())
}

/// Each byte is a piece of its own.
fn bring_bytes(
    alloc: Global,
    mux: &mut Mux,
    out: &mut String,
    c: u32,
    text: &str,
) -> Result<(), Memory> {
    let bytes = meant(alloc, text)?;
    bring_each(alloc, mux, out, c, bytes.as_slice())
}

/// So many pieces of the same text, behind a space.
fn bring_many(
    alloc: Global,
    mux: &mut Mux,
    out: &mut String,
    c: u32,
    rest: &str,
) -> Result<(), Memory> {
    let (count, text) = rest.split_once(' ').unwrap_or((rest, ""));
    for _ in 0..count.parse::<u16>().unwrap_or(0) {
        match bring_text(alloc, mux, out, c, text) {
            Ok(()) => {}
            Err(_) => return Err(Memory),
        }
    }
    Ok(())
}

/// A number that is held is dropped before it is opened again.
fn open(mux: &mut Mux, c: u32) -> Result<(), Memory> {
    mux.closed(c);
    mux.opened(c)
}

/// A word, a number of a connection, and a text, parted by spaces.
fn handle(alloc: Global, mux: &mut Mux, out: &mut String, event: &str) -> Result<(), Memory> {
    let (word, rest) = event.split_once(' ').unwrap_or((event, ""));
    let (c, text) = rest.split_once(' ').unwrap_or((rest, ""));
    let c = c.parse::<u32>().unwrap_or(0);
    match word {
        "open" => open(mux, c),
        "piece" => bring_text(alloc, mux, out, c, text),
        "bytes" => bring_bytes(alloc, mux, out, c, text),
        "many" => bring_many(alloc, mux, out, c, text),
        "close" => {
            mux.closed(c);
            take_all(alloc, mux, out, c)
        }
        "shut" => {
            mux.shut(c);
            take_all(alloc, mux, out, c)
        }
        _ => Ok(()),
    }
}

/// An event, and a mark where its items end.
fn step(alloc: Global, mux: &mut Mux, out: &mut String, event: &str) -> Result<(), Memory> {
    handle(alloc, mux, out, event)?;
    out.push_str(" |")?;
    Ok(())
}

fn play(alloc: Global, mux: &mut Mux, out: &mut String, script: &str) -> Result<(), Memory> {
    for event in script.split('|') {
        match step(alloc, mux, out, event) {
            Ok(()) => {}
            Err(_) => return Err(Memory),
        }
    }
    Ok(())
}

fn answer(alloc: Global, script: &str) -> Result<String, Memory> {
    let mut mux = Mux::new(alloc);
    let mut out = String::new(alloc);
    play(alloc, &mut mux, &mut out, script)?;
    Ok(out)
}

fn main(rt: HostRuntime) -> anyhow::Result<()> {
    let alloc = rt.alloc();
    for line in rt.lines(rt.alloc()) {
        let line = line?;
        let line = line.as_str();
        let answered = answer(alloc, line)?;
        println!(rt; "{line}:{}", answered.as_str())?;
    }
    Ok(())
}
