//! The files of the cases.

use basis::Memory;
use std::alloc::Global;

/// What a widget is stored as.
pub const BODY: &str =
    "{\"apiVersion\":\"demo.example/v1\",\"kind\":\"Widget\",\"spec\":{\"dimensions\":{\"size\":3},\"paused\":true}}";

/// A header, an open gate, the record of one put, and a closed gate.
pub fn file_of_a_put() -> &'static [u8] {
    b"KEMUJNL1\0\0\0\0\0\0\0\0O\0\0\0\x93\0\0\0\0\0\0\0\0\x01\0\0\0\0\0\0\0\x01\0\x0cdemo.example\0\x07widgets\0\x07default\0\x01a{\"apiVersion\":\"demo.example/v1\",\"kind\":\"Widget\",\"spec\":{\"dimensions\":{\"size\":3},\"paused\":true}}\0"
}

// A put of a widget with a name of two letters and an empty body, behind an open gate.
fn push_record(file: &mut Vec<u8>, high: u8, low: u8) -> Result<(), Memory> {
    let revision = high as u16 * 64 + low as u16 + 1;
    let name = [high.wrapping_add(b'0'), low.wrapping_add(b'0')];
    file.extend_from_slice(b"O\0\0\0\x35\0\0\0\0\0\0\0")?;
    file.extend_from_slice(&revision.to_be_bytes())?;
    file.extend_from_slice(
        b"\0\0\0\0\0\0\0\x01\0\x0cdemo.example\0\x07widgets\0\x07default\0\x02",
    )?;
    file.extend_from_slice(&name)?;
    Ok(())
}

fn push_records(file: &mut Vec<u8>, high: u8) -> Result<(), Memory> {
    for low in 0..64 {
        match push_record(file, high, low) {
            Ok(()) => {}
            Err(memory) => return Err(memory),
        }
    }
    Ok(())
}

fn push_all_records(file: &mut Vec<u8>) -> Result<(), Memory> {
    for high in 0..64 {
        match push_records(file, high) {
            Ok(()) => {}
            Err(memory) => return Err(memory),
        }
    }
    file.push(0)?;
    Ok(())
}

// A journal of 4,096 widgets.
fn full_file(alloc: Global) -> Result<Vec<u8>, Memory> {
    let mut file = Vec::from_slice(alloc, b"KEMUJNL1\0\0\0\0\0\0\0\0")?;
    match push_all_records(&mut file) {
        Ok(()) => Ok(file),
        Err(memory) => Err(memory),
    }
}

pub fn blanks(alloc: Global, count: usize) -> Result<Vec<u8>, Memory> {
    let mut bytes = Vec::new(alloc);
    match bytes.resize(count, b' ') {
        Ok(()) => Ok(bytes),
        Err(_) => Err(Memory),
    }
}

// Writes the bytes at the place, which are given as `PLACE,BYTE,BYTE`.
fn change(bytes: &mut [u8], change: &str) {
    let (at, words) = change.split_once(',').unwrap_or((change, ""));
    let mut place = at.parse::<usize>().unwrap_or(usize::MAX);
    for word in words.split(',') {
        if place < bytes.len() {
            bytes[place] = word.parse::<u8>().unwrap_or(0);
            place += 1;
        }
    }
}

fn copied(alloc: Global, bytes: &[u8]) -> Result<Vec<u8>, Memory> {
    Ok(Vec::from_slice(alloc, bytes)?)
}

// The file of a put, changed.
fn changed(alloc: Global, word: &str) -> Result<Vec<u8>, Memory> {
    let mut bytes = copied(alloc, file_of_a_put())?;
    change(bytes.as_mut_slice(), word);
    Ok(bytes)
}

/// The file that a word of a case names.
pub fn file_in(alloc: Global, word: &str) -> Result<Vec<u8>, Memory> {
    match word {
        "empty" => Ok(Vec::new(alloc)),
        "zeros" => copied(alloc, &[0; 40]),
        "ten" => copied(alloc, b"ten bytes."),
        "headed" => copied(alloc, b"KEMUJNL1\0\0\0\0\0\0\0\0O"),
        "fresh" => copied(alloc, b"KEMUJNL1\0\0\0\0\0\0\0\0\0"),
        "full" => full_file(alloc),
        change => changed(alloc, change),
    }
}
