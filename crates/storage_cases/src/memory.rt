//! Cases of a disk in memory, which holds `x`, `abc` and nothing at first.
ghost use Rattle.std.specs.Prelude.{◌≡◌, length};
ghost use Rattle.disk.specs.MemDisk.{mem_held};

use crate::calls::{Call, call_of, done_or_failed, number_at, push};
use basis::Memory;
use disk::{Disk, FailList, File, MemDisk};
use minor_version::Blob;
use std::alloc::Global;

// A disk with this choice and left file, and an empty right one.
fn disk_with(alloc: Global, choice: Blob, left: Blob, fails: &[u64]) -> Result<MemDisk, Memory> {
    let right = Blob::copy(alloc, b"")?;
    let fail = FailList::new(alloc, fails)?;
    Ok(MemDisk::new(alloc, choice, left, right, fail))
}

pub fn disk_of(
    alloc: Global,
    choice: &[u8],
    left: &[u8],
    fails: &[u64],
) -> Result<MemDisk, Memory> {
    let choice = Blob::copy(alloc, choice)?;
    let left = Blob::copy(alloc, left)?;
    disk_with(alloc, choice, left, fails)
}

fn start(alloc: Global, fails: &str) -> Result<MemDisk, Memory> {
    disk_of(
        alloc,
        b"x",
        b"abc",
        &[number_at(fails, 0), number_at(fails, 1)],
    )
}

fn held_length(disk: &MemDisk, file: File) -> u64
    ensures { result ≡ length (mem_held disk.now file) }
{
    disk.held_bytes(file).len() as u64
}

fn is_written(disk: &mut MemDisk, call: &Call<'_>) -> bool {
    call.at <= held_length(disk, call.file) && disk.write_at(call.file, call.at, call.bytes).is_ok()
}

fn is_cut(disk: &mut MemDisk, call: &Call<'_>) -> bool {
    call.at <= held_length(disk, call.file) && disk.cut(call.file, call.at).is_ok()
}

// Whether two bytes are read as they should.
fn is_read(disk: &mut MemDisk, call: &Call<'_>) -> bool {
    let mut two = [0; 2];
    if held_length(disk, call.file) < 2 || call.at > held_length(disk, call.file) - 2 {
        return false;
    }
    disk.read_at(call.file, call.at, &mut two).is_ok() && two.as_slice() == call.bytes
}

fn has_length(disk: &mut MemDisk, call: &Call<'_>) -> bool {
    match disk.len(call.file) {
        Ok(len) => len == call.at,
        Err(_) => false,
    }
}

fn is_done(disk: &mut MemDisk, call: &Call<'_>) -> bool {
    match call.kind {
        "write" => is_written(disk, call),
        "cut" => is_cut(disk, call),
        "sync" => disk.sync(call.file).is_ok(),
        "read" => is_read(disk, call),
        "len" => has_length(disk, call),
        _ => false,
    }
}

fn is_done_as_told(disk: &mut MemDisk, word: &str) -> bool {
    match call_of(word) {
        Some(call) => is_done(disk, &call),
        None => false,
    }
}

fn push_call(disk: &mut MemDisk, word: &str, text: &mut String) -> Result<(), Memory> {
    push(text, done_or_failed(is_done_as_told(disk, word)))?;
    push(text, " ")
}

// What becomes of each call.
fn push_calls(disk: &mut MemDisk, calls: &str, text: &mut String) -> Result<(), Memory> {
    for word in calls.split(' ') {
        match push_call(disk, word, text) {
            Ok(()) => {}
            Err(memory) => return Err(memory),
        }
    }
    Ok(())
}

fn push_file(disk: &MemDisk, file: File, end: &str, text: &mut String) -> Result<(), Memory> {
    push(text, str::from_utf8(disk.held_bytes(file)).unwrap_or("?"))?;
    push(text, end)
}

fn push_files(disk: &MemDisk, text: &mut String) -> Result<(), Memory> {
    push_file(disk, File::Choice, ",", text)?;
    push_file(disk, File::Left, ",", text)?;
    push_file(disk, File::Right, "|", text)
}

fn push_stop(disk: &MemDisk, t: u64, pick: u64, text: &mut String) -> Result<(), Memory> {
    if disk.moment() < t {
        return Ok(());
    }
    match disk.after_stop(t, pick) {
        Ok(stopped) => push_files(&stopped, text),
        Err(memory) => Err(memory),
    }
}

fn push_stops(disk: &MemDisk, pick: u64, text: &mut String) -> Result<(), Memory> {
    for t in 0..disk.moment().saturating_add(1) {
        match push_stop(disk, t, pick, text) {
            Ok(()) => {}
            Err(memory) => return Err(memory),
        }
    }
    Ok(())
}

fn push_calls_and_files(disk: &mut MemDisk, calls: &str, text: &mut String) -> Result<(), Memory> {
    push_calls(disk, calls, text)?;
    disk.pass();
    push_files(disk, text)
}

fn make_calls(alloc: Global, disk: &mut MemDisk, calls: &str) -> Result<String, Memory> {
    let mut text = String::new(alloc);
    match push_calls_and_files(disk, calls, &mut text) {
        Ok(()) => Ok(text),
        Err(memory) => Err(memory),
    }
}

/// What becomes of each call where those with these numbers fail, and what the files hold then.
pub fn answers(alloc: Global, case: &str) -> Result<String, Memory> {
    let (fails, calls) = case.split_once(' ').unwrap_or((case, ""));
    match start(alloc, fails) {
        Ok(mut disk) => make_calls(alloc, &mut disk, calls),
        Err(memory) => Err(memory),
    }
}

fn push_stops_after(
    disk: &mut MemDisk,
    pick: u64,
    calls: &str,
    text: &mut String,
) -> Result<(), Memory> {
    push_calls(disk, calls, text)?;
    text.clear();
    push_stops(disk, pick, text)
}

fn stop_after(alloc: Global, disk: &mut MemDisk, pick: u64, calls: &str) -> Result<String, Memory> {
    let mut text = String::new(alloc);
    match push_stops_after(disk, pick, calls, &mut text) {
        Ok(()) => Ok(text),
        Err(memory) => Err(memory),
    }
}

/// What a stop leaves at each moment of the calls, for a pick.
pub fn stops(alloc: Global, case: &str) -> Result<String, Memory> {
    let (pick, rest) = case.split_once(' ').unwrap_or((case, ""));
    let (fails, calls) = rest.split_once(' ').unwrap_or((rest, ""));
    match start(alloc, fails) {
        Ok(mut disk) => stop_after(alloc, &mut disk, number_at(pick, 0), calls),
        Err(memory) => Err(memory),
    }
}
