//! Scripts as texts.
use basis::Memory;
use scripts::{Script, ScriptEvent};
use serde_json::Value;
use std::alloc::Global;

fn quoted(alloc: Global, bytes: &[u8]) -> Result<String, Memory> {
    let text = match str::from_utf8(bytes) {
        Ok(text) => text,
        Err(_) => "not a text",
    };
    let json = Value::try_from_str(alloc, text)?;
    Ok(json.to_string(alloc)?)
}

fn piece_text(alloc: Global, c: u32, bytes: &[u8]) -> Result<String, Memory> {
    let text = quoted(alloc, bytes)?;
    let text = text.as_str();
    Ok(format!(in alloc; "piece {c} {text}\n")?)
}

fn close_text(alloc: Global, c: u32) -> Result<String, Memory> {
    Ok(format!(in alloc; "close {c}\n")?)
}

fn event_text(alloc: Global, event: &ScriptEvent) -> Result<String, Memory> {
    match event {
        ScriptEvent::Open => Ok(String::from_str(alloc, "open\n")?),
        ScriptEvent::Piece(c, bytes) => piece_text(alloc, *c, bytes.bytes()),
        ScriptEvent::Close(c) => close_text(alloc, *c),
    }
}

fn note(alloc: Global, out: &mut String, event: &ScriptEvent) -> Result<(), Memory> {
    let text = event_text(alloc, event)?;
    out.push_str(text.as_str())?;
    Ok(())
}

/// The script, a line for each event.
pub fn script_text(alloc: Global, script: &Script) -> Result<String, Memory> {
    let mut out = String::new(alloc);
    for event in script.events() {
        match note(alloc, &mut out, event) {
            Ok(()) => {}
            Err(_) => return Err(Memory),
        }
    }
    Ok(out)
}

/// A checksum of the text (FNV-1a, of 32 bits).
fn checksum(text: &[u8]) -> u32 {
    let mut sum: u32 = 2_166_136_261;
    for byte in text {
        sum = (sum ^ u32::from(*byte)).wrapping_mul(16_777_619);
    }
    sum
}

/// How many events the script has, how many bytes its text, and a checksum of that.
pub fn script_sum(alloc: Global, script: &Script) -> Result<String, Memory> {
    let text = script_text(alloc, script)?;
    let count = script.events().len();
    let bytes = text.len();
    let sum = checksum(text.as_bytes());
    Ok(format!(in alloc; "{count} events, {bytes} bytes, checksum {sum}\n")?)
}
