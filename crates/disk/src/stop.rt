ghost use Rattle.std.specs.Prelude.{◌≡◌, ◌⊎◌, ◌↔◌, ◌≤◌, ◌<◌, ◌%◌, ℕ, length, max, get_or, IfOk, OnOk, IsTrue};
ghost use Rattle.disk.specs.Images.{Pending, same_file, reached, after_write, after_cut};
ghost use Rattle.disk.specs.MemDisk.{State, step, entered, replay, resting_state};
ghost use Rattle.disk.specs.Stops.{IsFilled, IsPicked, IsLeft};

use crate::file::File;
use crate::log::{Change, Entry};
use crate::slots::{fits, patch};
use basis::Memory;
use minor_version::Blob;
use std::alloc::Global;

fn is_same(a: File, b: File) -> bool
    ensures { result ≡ same_file a b }
{
    matches!(
        (a, b),
        (File::Choice, File::Choice) | (File::Left, File::Left) | (File::Right, File::Right)
    )
}

// Puts the byte at each place from `from` up to `to` that the bytes have.
fn fill(bytes: &mut [u8], from: u64, to: u64, byte: u8)
    ensures inside { (k : ℕ) → from ≤ k → k < to → k < length bytes.old → get_or bytes.new k 0 ≡ byte }
    ensures outside { (k : ℕ) → (k < from) ⊎ (to ≤ k) → get_or bytes.new k 0 ≡ get_or bytes.old k 0 }
{
    let end = to.min(bytes.len() as u64) as usize;
    let start = from.min(end as u64) as usize;
    for k in start..end {
        bytes[k] = byte;
    }
}

// Makes the bytes at least so many.
fn grow(bytes: &mut Vec<u8>, len: usize, byte: u8) -> Result<(), Memory>
    ensures len { OnOk result (length bytes.new.items ≡ max (length bytes.old.items) len) }
    ensures kept { OnOk result ((k : ℕ) → k < length bytes.old.items → get_or bytes.new.items k 0
        ≡ get_or bytes.old.items k 0) }
    ensures grown { OnOk result ((k : ℕ) → length bytes.old.items ≤ k → k < len
        → get_or bytes.new.items k 0 ≡ byte) }
{
    if bytes.len() < len {
        bytes.resize(len, byte)?;
    }
    Ok(())
}

// A write of so many bytes at a place, good or failed, frees what it covers.
fn free_write(left: &mut Vec<u8>, at: u64, count: u64, byte: u8) -> Result<(), Memory>
    ensures { OnOk result ((p : Pending) → length p.base ≤ p.greatest
        → IsFilled byte p left.old.items → IsFilled byte (after_write at count p) left.new.items) }
{
    if !fits(at, count) {
        fill(left.as_mut_slice(), at, u64::MAX, byte);
        return Ok(());
    }
    grow(left, (at + count) as usize, byte)?;
    fill(left.as_mut_slice(), at, at + count, byte);
    Ok(())
}

// A cut, good or failed, frees what stands from its place on.
fn free_cut(left: &mut Vec<u8>, to: u64, byte: u8)
    ensures { (p : Pending) → IsFilled byte p left.old.items
        → IsFilled byte (after_cut to p) left.new.items }
{
    fill(left.as_mut_slice(), to, u64::MAX, byte);
}

// What is left after one change, by what the file held before it.
fn next_left(
    alloc: Global,
    held: &[u8],
    left: &mut Vec<u8>,
    change: &Change,
    pick: u64,
) -> Result<(), Memory>
    ensures { OnOk result ((s : State) → s.held ≡ held.now
        → length s.pending.base ≤ s.pending.greatest → IsLeft pick s.pending left.old.items
        → IsLeft pick (step change.now s).pending left.new.items) }
{
    let byte = (pick % 256) as u8;
    match change {
        Change::Wrote(at, bytes) => {
            let count = bytes.bytes().len() as u64;
            if 1 < pick && *at <= held.len() as u64 && fits(*at, count) {
                free_write(left, *at, count, byte)?;
            }
        }
        Change::WriteFailed(at, count) => {
            if 1 < pick {
                free_write(left, *at, *count, byte)?;
            }
        }
        Change::Cut(to) | Change::CutFailed(to) => {
            if 1 < pick {
                free_cut(left, *to, byte);
            }
        }
        Change::Synced => {
            *left = Vec::from_slice(alloc, held)?;
        }
    }
    Ok(())
}

// What the file holds after one change.
fn next_held(held: &mut Vec<u8>, change: &Change) -> Result<(), Memory>
    ensures { OnOk result ((s : State) → s.held ≡ held.old.items → (step change.now s).held
        ≡ held.new.items) }
{
    match change {
        Change::Wrote(at, bytes) => {
            let bytes = bytes.bytes();
            if *at <= held.len() as u64 && fits(*at, bytes.len() as u64) {
                return patch(held, *at as usize, bytes);
            }
            Ok(())
        }
        Change::Cut(to) => {
            held.truncate(*to as usize);
            Ok(())
        }
        Change::WriteFailed(_, _) | Change::CutFailed(_) | Change::Synced => Ok(()),
    }
}

// The same after an entry, where it is of the file and no later than the moment.
fn next(
    alloc: Global,
    held: &mut Vec<u8>,
    left: &mut Vec<u8>,
    entry: &Entry,
    file: File,
    t: u64,
    pick: u64,
) -> Result<(), Memory>
    ensures held { OnOk result ((s : State) → s.held ≡ held.old.items
        → (entered t file entry.now s).held ≡ held.new.items) }
    ensures left { OnOk result ((s : State) → s.held ≡ held.old.items
        → length s.pending.base ≤ s.pending.greatest → IsLeft pick s.pending left.old.items
        → IsLeft pick (entered t file entry.now s).pending left.new.items) }
{
    if entry.moment <= t && is_same(file, entry.file) {
        next_left(alloc, held.as_slice(), left, &entry.change, pick)?;
        next_held(held, &entry.change)?;
    }
    Ok(())
}

/// What a stop at a moment is made to leave of a file.
pub fn image_of(
    alloc: Global,
    first: &[u8],
    log: &[Entry],
    file: File,
    t: u64,
    pick: u64,
) -> Result<Blob, Memory>
    ensures { IfOk result (λ image. IsPicked pick (replay t file log.now (resting_state first.now)) image) }
{
    let mut held = Vec::from_slice(alloc, first)?;
    let mut left = Vec::from_slice(alloc, first)?;
    for entry in log {
        match next(alloc, &mut held, &mut left, entry, file, t, pick) {
            Ok(()) => {}
            Err(memory) => return Err(memory),
        }
    }
    if pick == 1 {
        return Blob::copy(alloc, held.as_slice());
    }
    Blob::copy(alloc, left.as_slice())
}
