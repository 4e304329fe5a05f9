//! A call of a disk, as it is written in a case: `KIND:FILE:PLACE:BYTES`.

use basis::Memory;
use disk::File;

#[derive(Clone, Copy)]
pub struct Call<'a> {
    pub kind: &'a str,
    pub file: File,
    pub at: u64,
    pub bytes: &'a [u8],
}

pub fn file_named(name: &str) -> Option<File> {
    match name {
        "choice" => Some(File::Choice),
        "left" => Some(File::Left),
        "right" => Some(File::Right),
        _ => None,
    }
}

fn call_on<'a>(kind: &'a str, file: File, rest: &'a str) -> Option<Call<'a>> {
    let (at, bytes) = rest.split_once(':')?;
    let at = at.parse::<u64>().ok()?;
    Some(Call {
        kind,
        file,
        at,
        bytes: bytes.as_bytes(),
    })
}

pub fn call_of(word: &str) -> Option<Call<'_>> {
    let (kind, rest) = word.split_once(':')?;
    let (file, rest) = rest.split_once(':')?;
    let file = file_named(file)?;
    call_on(kind, file, rest)
}

pub fn done_or_failed(is_done: bool) -> &'static str {
    if is_done { "done" } else { "failed" }
}

/// The numbers of a list, as `4,6`; `0` numbers no call.
pub fn number_at(list: &str, index: usize) -> u64 {
    match list.split(',').nth(index) {
        Some(word) => word.parse::<u64>().unwrap_or(0),
        None => 0,
    }
}

pub fn push(text: &mut String, part: &str) -> Result<(), Memory> {
    match text.push_str(part) {
        Ok(()) => Ok(()),
        Err(_) => Err(Memory),
    }
}
