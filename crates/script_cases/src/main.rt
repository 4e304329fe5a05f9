//! Cases of scripts: a line of standard input is the text of a script, and its events or its first bad line are the answer.
//! `\n` means a line feed, and `\\` a backslash. `many 256` means the text of so many lines `open`.
#![tactic(auto)]

use basis::Memory;
use scripts::{Script, ScriptEvent, ScriptFault};
use std::alloc::{AllocError, Global};

/// The byte that a letter behind a backslash stands for.
fn escaped(letter: u8) -> u8 {
    match letter {
        b'n' => b'\n',
        _ => letter,
    }
}

/// The bytes that the text means, with its line feeds escaped.
fn meant(alloc: Global, text: &str) -> Result<Vec<u8>, Memory> {
    let mut bytes = Vec::new(alloc);
    let mut is_escaped = false;
    for byte in text.as_bytes() {
        if *byte == b'\\' && !is_escaped {
            is_escaped = true;
            continue;
        }
        let byte = if is_escaped { escaped(*byte) } else { *byte };
        is_escaped = false;
        match bytes.push(byte) {
            Ok(()) => {}
            Err(_) => return Err(Memory),
        }
    }
    Ok(bytes)
}

/// So many lines `open`.
fn many_opens(alloc: Global, count: u32) -> Result<Vec<u8>, Memory> {
    let mut bytes = Vec::new(alloc);
    for _ in 0..count {
        match bytes.extend_from_slice(b"open\n") {
            Ok(()) => {}
            Err(_) => return Err(Memory),
        }
    }
    Ok(bytes)
}

fn text_of(alloc: Global, line: &str) -> Result<Vec<u8>, Memory> {
    let (word, rest) = line.split_once(' ').unwrap_or((line, ""));
    if word == "many" {
        many_opens(alloc, rest.parse::<u32>().unwrap_or(0))
    } else {
        meant(alloc, line)
    }
}

/// The bytes in hexadecimal digits.
fn hex_of(alloc: Global, bytes: &[u8]) -> Result<String, Memory> {
    let mut out = String::new(alloc);
    for byte in bytes {
        let digits = format!(in alloc; "{byte:02x}")?;
        match out.push_str(digits.as_str()) {
            Ok(()) => {}
            Err(_) => return Err(Memory),
        }
    }
    Ok(out)
}

fn piece_text(alloc: Global, c: u32, bytes: &[u8]) -> Result<String, Memory> {
    let digits = hex_of(alloc, bytes)?;
    let digits = digits.as_str();
    let text = format!(in alloc; " piece {c} {digits}")?;
    Ok(text)
}

fn close_text(alloc: Global, c: u32) -> Result<String, Memory> {
    let text = format!(in alloc; " close {c}")?;
    Ok(text)
}

fn event_text(alloc: Global, event: &ScriptEvent) -> Result<String, Memory> {
    match event {
        ScriptEvent::Open => Ok(String::from_str(alloc, " open")?),
        ScriptEvent::Piece(c, bytes) => piece_text(alloc, *c, bytes.bytes()),
        ScriptEvent::Close(c) => close_text(alloc, *c),
    }
}

fn note(alloc: Global, out: &mut String, event: &ScriptEvent) -> Result<(), Memory> {
    let text = event_text(alloc, event)?;
    out.push_str(text.as_str())?;
    Ok(())
}

fn events_text(alloc: Global, events: &[ScriptEvent]) -> Result<String, Memory> {
    let mut out = String::new(alloc);
    for event in events {
        match note(alloc, &mut out, event) {
            Ok(()) => {}
            Err(_) => return Err(Memory),
        }
    }
    Ok(out)
}

fn count_text(alloc: Global, count: usize) -> Result<String, AllocError> {
    format!(in alloc; " {count} events")
}

/// The events, or only how many there are.
fn script_text(alloc: Global, script: &Script) -> Result<String, Memory> {
    let events = script.events();
    if events.len() > 20 {
        Ok(count_text(alloc, events.len())?)
    } else {
        events_text(alloc, events)
    }
}

fn fault_text(alloc: Global, fault: ScriptFault) -> Result<String, Memory> {
    match fault {
        ScriptFault::BadLine { number } => Ok(format!(in alloc; " line {number}")?),
        ScriptFault::Memory => Err(Memory),
    }
}

fn answer(alloc: Global, line: &str) -> Result<String, Memory> {
    let text = text_of(alloc, line)?;
    match Script::read(alloc, text.as_slice()) {
        Ok(script) => script_text(alloc, &script),
        Err(fault) => fault_text(alloc, fault),
    }
}

fn main(rt: HostRuntime) -> anyhow::Result<()> {
    let alloc = rt.alloc();
    for line in rt.lines(rt.alloc()) {
        let line = line?;
        let line = line.as_str();
        let answered = answer(alloc, line)?;
        println!(rt; "{line}:{}", answered.as_str())?;
    }
    Ok(())
}
