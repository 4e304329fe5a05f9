//! Questions on words and pieces.
use flag_text::{LastPieces, Vocabulary, last_pieces, pieces, said_in};
use lifecycle::{VersionWord, version_word};
use minor_version::Memory;
use std::alloc::Global;
use std::fmt::Write;

fn shown(alloc: Global, word: Option<VersionWord>) -> Result<String, Memory> {
    match word {
        Some(word) => Ok(format!(in alloc; "{} {:?}", word.major, word.level)?),
        None => Ok(String::from_str(alloc, "none")?),
    }
}

/// The first word, or the second where that is the more stable of two.
fn more_stable(first: &str, second: &str) -> Option<VersionWord> {
    let first = version_word(first.as_bytes());
    match (first, version_word(second.as_bytes())) {
        (Some(a), Some(b)) if b < a => Some(b),
        _ => first,
    }
}

/// `<text>`: the version word that it is; `<text> <text>`: the more stable of two.
pub fn version(alloc: Global, rest: &str) -> Result<String, Memory> {
    let (first, second) = rest.split_once(' ').unwrap_or((rest, ""));
    shown(alloc, more_stable(first, second))
}

/// `<word>`: the boolean that it is as a Go word, and as one of the two plain words.
pub fn boolean(alloc: Global, rest: &str) -> Result<String, Memory> {
    let go = Vocabulary::Go.boolean(rest.as_bytes());
    let plain = Vocabulary::Plain.boolean(rest.as_bytes());
    Ok(format!(in alloc; "{go:?} {plain:?}")?)
}

fn push_pieces(line: &mut String, last: &LastPieces<'_>) -> Result<(), Memory> {
    for piece in &last.pieces {
        let said = said_in(&last.booleans, piece.name);
        match write!(line, "{} {} {said:?};", piece.place, piece.name.len()) {
            Ok(()) => {}
            Err(_) => return Err(Memory),
        }
    }
    Ok(())
}

fn listed(alloc: Global, last: &LastPieces<'_>) -> Result<String, Memory> {
    let mut line = String::new(alloc);
    match push_pieces(&mut line, last) {
        Ok(()) => Ok(line),
        Err(memory) => Err(memory),
    }
}

/// `<text>`: the place, the length of the name and the boolean of each last piece.
pub fn last(alloc: Global, rest: &str) -> Result<String, Memory> {
    let all = pieces(alloc, rest.as_bytes())?;
    match last_pieces(alloc, Vocabulary::Go, all) {
        Ok(last) => listed(alloc, &last),
        Err(memory) => Err(memory),
    }
}
