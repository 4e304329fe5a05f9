//! The event that a line writes.
ghost use Rattle.std.specs.Prelude.{◌≡◌, ◌≢◌, ◌==◌, ◌<◌, ◌^◌, ◌∷◌, ◌++◌, ℕ, List, All, IfOk, IfSome, IfNone, codes, decimal, length, position};
ghost use Rattle.scripts.specs.Writing.{numbered, WritesText, WritesHex, WritesClose, Writes};
ghost use Rattle.scripts.specs.declared.script.ScriptEvent.{ScriptEvent as EventS};

use crate::hex::bytes_of;
use crate::json::string_of;
use crate::number::number_of;
use crate::script::ScriptEvent;
use basis::Memory;
use minor_version::Blob;
use std::alloc::Global;

fn space_at(text: &[u8]) -> Option<usize>
    ensures place { result ≡ position (λ c. c == 32) text.now }
    ensures bound { IfSome result (λ at. at < length text.now) }
{
    text.iter().position(|byte| *byte == b' ')
}

// What stands around the first space.
fn cut_at_space<'a>(text: &'a [u8]) -> Option<(&'a [u8], &'a [u8])>
    ensures whole { IfSome result (λ r. text.now ≡ r.0.now ++ 32 ∷ r.1.now) }
    ensures first { IfSome result (λ r. All (λ c. c ≢ 32) r.0.now) }
    ensures none { IfNone result (All (λ c. c ≢ 32) text.now) }
{
    match space_at(text) {
        Some(at) => Some((text.split_at(at).0, text.split_at(at + 1).1)),
        None => None,
    }
}

// What stands behind the word, if the line begins with it.
fn behind<'a>(line: &'a [u8], word: &[u8]) -> Option<&'a [u8]>
    ensures some { IfSome result (λ rest. line.now ≡ word.now ++ rest.now) }
    ensures none { IfNone result ((rest : List ℕ) → line.now ≢ word.now ++ rest) }
{
    line.strip_prefix(word)
}

// A number of a connection, and what stands behind it and a space.
fn numbered<'a>(text: &'a [u8]) -> Option<(u32, &'a [u8])>
    ensures some { IfSome result (λ r. text.now ≡ numbered r.0 r.1.now) }
    ensures bound { IfSome result (λ r. r.0 < 2 ^ 32) }
    ensures none { IfNone result ((c : ℕ) (rest : List ℕ)
        → c < 2 ^ 32 → text.now ≢ numbered c rest) }
{
    let Some((digits, rest)) = cut_at_space(text) else {
        return None;
    };
    match number_of(digits) {
        Some(c) => Some((c, rest)),
        None => None,
    }
}

// The number and the rest of a line that begins with the word.
fn numbered_behind<'a>(line: &'a [u8], word: &[u8]) -> Option<(u32, &'a [u8])>
    ensures some { IfSome result (λ r. line.now ≡ word.now ++ numbered r.0 r.1.now) }
    ensures bound { IfSome result (λ r. r.0 < 2 ^ 32) }
    ensures none { IfNone result ((c : ℕ) (rest : List ℕ)
        → c < 2 ^ 32 → line.now ≢ word.now ++ numbered c rest) }
{
    match behind(line, word) {
        Some(text) => numbered(text),
        None => None,
    }
}

// The connection that the line closes.
fn closed_in(line: &[u8]) -> Option<u32>
    ensures some { IfSome result (λ c. WritesClose line.now c) }
    ensures none { IfNone result ((c : ℕ) → ¬ WritesClose line.now c) }
{
    match behind(line, b"close ") {
        Some(digits) => number_of(digits),
        None => None,
    }
}

// The piece that the line writes as a JSON string.
fn text_in(alloc: Global, line: &[u8]) -> Result<Option<(u32, Blob)>, Memory>
    ensures some { IfOk result (λ o. IfSome o (λ p. WritesText line.now p.0 p.1)) }
    ensures none { IfOk result (λ o. IfNone o ((c : ℕ) (bytes : List ℕ) → ¬ WritesText line.now c bytes)) }
{
    let Some((c, json)) = numbered_behind(line, b"piece ") else {
        return Ok(None);
    };
    match string_of(alloc, json)? {
        Some(bytes) => Ok(Some((c, bytes))),
        None => Ok(None),
    }
}

// The piece that the line writes in hexadecimal digits.
fn hex_in(alloc: Global, line: &[u8]) -> Result<Option<(u32, Blob)>, Memory>
    ensures some { IfOk result (λ o. IfSome o (λ p. WritesHex line.now p.0 p.1)) }
    ensures none { IfOk result (λ o. IfNone o ((c : ℕ) (bytes : List ℕ) → ¬ WritesHex line.now c bytes)) }
{
    let Some((c, hex)) = numbered_behind(line, b"bytes ") else {
        return Ok(None);
    };
    match bytes_of(alloc, hex)? {
        Some(bytes) => Ok(Some((c, bytes))),
        None => Ok(None),
    }
}

// The piece that the line writes.
fn piece_in(alloc: Global, line: &[u8]) -> Result<Option<ScriptEvent>, Memory>
    ensures some { IfOk result (λ o. IfSome o (λ event. Writes line.now event)) }
    ensures none { IfOk result (λ o. IfNone o ((c : ℕ) (bytes : List ℕ) → ¬ Writes line.now (ScriptEvent.Piece c bytes))) }
{
    if let Some((c, bytes)) = text_in(alloc, line)? {
        return Ok(Some(ScriptEvent::Piece(c, bytes)));
    }
    match hex_in(alloc, line)? {
        Some((c, bytes)) => Ok(Some(ScriptEvent::Piece(c, bytes))),
        None => Ok(None),
    }
}

/// The event that the line writes.
pub fn event_of(alloc: Global, line: &[u8]) -> Result<Option<ScriptEvent>, Memory>
    ensures some { IfOk result (λ o. IfSome o (λ event. Writes line.now event)) }
    ensures none { IfOk result (λ o. IfNone o ((event : EventS) → ¬ Writes line.now event)) }
{
    if line == b"open".as_slice() {
        return Ok(Some(ScriptEvent::Open));
    }
    if let Some(c) = closed_in(line) {
        return Ok(Some(ScriptEvent::Close(c)));
    }
    piece_in(alloc, line)
}
