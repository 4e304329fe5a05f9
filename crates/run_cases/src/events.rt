//! The scripts of the cases.

use basis::Memory;
use scripts::{Script, ScriptEvent, ScriptFault};
use std::alloc::Global;

/// A creation of the widget `a`, as a script writes it.
const POST: &str =
    r#"POST /apis/demo.example/v1beta1/namespaces/default/widgets HTTP/1.1\r\nHost: 127.0.0.1:8080\r\nUser-Agent: curl/8.5.0\r\nAccept: */*\r\nContent-Type: application/json\r\nContent-Length: 58\r\n\r\n{\"metadata\":{\"name\":\"a\"},\"spec\":{\"size\":3,\"active\":false}}"#;

/// A question for the version.
const VERSION: &str = r#"GET /version HTTP/1.1\r\n\r\n"#;

fn with_blanks(alloc: Global, text: &str) -> Result<String, Memory> {
    let blanks = " ".repeat(alloc, 4_000)?;
    Ok(text.replace(alloc, "@blanks", blanks.as_str())?)
}

/// The text of the script that a case tells, in which `; ` parts the lines, and `@post`, `@version` and `@blanks` stand for a
/// creation, a question and 4,000 blanks.
fn script_text(alloc: Global, script: &str) -> Result<String, Memory> {
    let text = script.replace(alloc, "; ", "\n")?;
    let text = text.replace(alloc, "@post", POST)?;
    let text = text.replace(alloc, "@version", VERSION)?;
    with_blanks(alloc, text.as_str())
}

/// The script of a case.
pub fn script_of(alloc: Global, script: &str) -> Result<Script, ScriptFault> {
    match script_text(alloc, script) {
        Ok(text) => Script::read(alloc, text.as_bytes()),
        Err(_) => Err(ScriptFault::Memory),
    }
}

/// The bytes of the script's first piece.
pub fn first_piece(script: &Script) -> &[u8] {
    for event in script.events() {
        if let ScriptEvent::Piece(_, bytes) = event {
            return bytes.bytes();
        }
    }
    &[]
}

fn note_byte(alloc: Global, text: &mut String, byte: u8) -> Result<(), Memory> {
    let digits = format!(in alloc; "{byte:02x}")?;
    text.push_str(digits.as_str())?;
    Ok(())
}

/// The bytes in hexadecimal digits.
pub fn hex(alloc: Global, bytes: &[u8]) -> Result<String, Memory> {
    let mut text = String::new(alloc);
    for byte in bytes {
        match note_byte(alloc, &mut text, *byte) {
            Ok(()) => {}
            Err(_) => return Err(Memory),
        }
    }
    Ok(text)
}

/// The text of a script that sends the bytes in two pieces.
pub fn in_two(alloc: Global, bytes: &[u8], at: usize) -> Result<String, Memory> {
    let (front, rest) = bytes.split_at(at.min(bytes.len()));
    let front = hex(alloc, front)?;
    let rest = hex(alloc, rest)?;
    Ok(format!(in alloc; "open; bytes 0 {front}; bytes 0 {rest}; close 0")?)
}

fn note_piece(alloc: Global, text: &mut String, byte: u8) -> Result<(), Memory> {
    let line = format!(in alloc; "; bytes 0 {byte:02x}")?;
    text.push_str(line.as_str())?;
    Ok(())
}

/// The text of a script that sends each byte in a piece of its own.
pub fn byte_by_byte(alloc: Global, bytes: &[u8]) -> Result<String, Memory> {
    let mut text = String::from_str(alloc, "open")?;
    for byte in bytes {
        match note_piece(alloc, &mut text, *byte) {
            Ok(()) => {}
            Err(_) => return Err(Memory),
        }
    }
    Ok(text)
}
