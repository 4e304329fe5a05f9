//! Cases of the real disk, in one folder that each case may leave for the next.

use crate::calls::{Call, call_of, done_or_failed, push};
use crate::fault_files::FaultFiles;
use basis::Memory;
use disk::{Disk, FileDisk, LockFile};
use std::alloc::Global;
use std::fs;
use std::rt::Files;

const FOLDER: &str = "files_of_a_disk";

// Whether two bytes are read as they should, or none where none are wanted.
fn is_read<R: Files>(disk: &mut FileDisk<R>, call: &Call<'_>) -> bool {
    let mut two = [0; 2];
    if call.bytes.is_empty() {
        return disk.read_at(call.file, call.at, &mut []).is_ok();
    }
    disk.read_at(call.file, call.at, &mut two).is_ok() && two.as_slice() == call.bytes
}

fn has_length<R: Files>(disk: &mut FileDisk<R>, call: &Call<'_>) -> bool {
    match disk.len(call.file) {
        Ok(len) => len == call.at,
        Err(_) => false,
    }
}

fn is_done<R: Files>(disk: &mut FileDisk<R>, call: &Call<'_>) -> bool {
    match call.kind {
        "write" => disk.write_at(call.file, call.at, call.bytes).is_ok(),
        "cut" => disk.cut(call.file, call.at).is_ok(),
        "sync" => disk.sync(call.file).is_ok(),
        "read" => is_read(disk, call),
        "len" => has_length(disk, call),
        _ => false,
    }
}

fn push_call<R: Files>(
    disk: &mut FileDisk<R>,
    word: &str,
    text: &mut String,
) -> Result<(), Memory> {
    let is_done = match call_of(word) {
        Some(call) => is_done(disk, &call),
        None => false,
    };
    push(text, " ")?;
    push(text, done_or_failed(is_done))
}

fn push_calls<R: Files>(
    disk: &mut FileDisk<R>,
    calls: &str,
    text: &mut String,
) -> Result<(), Memory> {
    for word in calls.split(' ') {
        match push_call(disk, word, text) {
            Ok(()) => {}
            Err(memory) => return Err(memory),
        }
    }
    Ok(())
}

fn calls_made<R: Files>(
    disk: &mut FileDisk<R>,
    alloc: Global,
    calls: &str,
) -> Result<String, Memory> {
    let mut text = String::from_str(alloc, "opened")?;
    match push_calls(disk, calls, &mut text) {
        Ok(()) => Ok(text),
        Err(memory) => Err(memory),
    }
}

// Opens the disk, and makes the calls.
fn open_and_call<R: Files>(rt: &R, alloc: Global, calls: &str) -> Result<String, Memory>
where
    R::File: LockFile,
{
    match FileDisk::at(rt, alloc, FOLDER) {
        Ok(mut disk) => calls_made(&mut disk, alloc, calls),
        Err(_) => Ok(String::from_str(alloc, "not opened")?),
    }
}

// Opens the disk again while it is open, and once more when it isn't.
fn open_twice<R: Files>(rt: &R, alloc: Global) -> Result<String, Memory>
where
    R::File: LockFile,
{
    match FileDisk::at(rt, alloc, FOLDER) {
        Ok(_first) => open_and_call(rt, alloc, ""),
        Err(_) => Ok(String::from_str(alloc, "no first")?),
    }
}

fn faulty(rt: &HostRuntime, case: &str) -> Result<String, Memory> {
    let (name, calls) = case.split_once(' ').unwrap_or((case, ""));
    open_and_call(&FaultFiles { rt, name }, rt.alloc(), calls)
}

// What a file of the folder holds.
fn named(rt: &HostRuntime, name: &str) -> Result<String, Memory> {
    let alloc = rt.alloc();
    let path = format!(in alloc; "{FOLDER}/{name}")?;
    match fs::read_to_string(rt, path.as_str()) {
        Ok(text) => Ok(text),
        Err(_) => Ok(String::from_str(alloc, "no file")?),
    }
}

fn folder_answer(rt: &HostRuntime) -> Result<String, Memory> {
    let word = match fs::exists(rt, FOLDER) {
        Ok(true) => "there",
        Ok(false) => "gone",
        Err(_) => "failed",
    };
    Ok(String::from_str(rt.alloc(), word)?)
}

fn removed(rt: &HostRuntime) -> Result<String, Memory> {
    let is_done = fs::remove_dir_all(rt, FOLDER).is_ok();
    Ok(String::from_str(rt.alloc(), done_or_failed(is_done))?)
}

pub fn answer(rt: &HostRuntime, question: &str, case: &str) -> Result<String, Memory> {
    let alloc = rt.alloc();
    match question {
        "files" => open_and_call(rt, alloc, case),
        "twice" => open_twice(rt, alloc),
        "faulty" => faulty(rt, case),
        "named" => named(rt, case),
        "folder" => folder_answer(rt),
        "remove" => removed(rt),
        _ => Ok(String::from_str(alloc, "no question")?),
    }
}
