ghost use Rattle.std.specs.Prelude.{◌≡◌, ◌↔◌, ◌≤◌, ◌<◌, ◌+◌, ℕ, length, take, IfOk, OnOk, OnErr, IsTrue, get_or, ◌⊎◌};
ghost use Rattle.disk.specs.Images.{patched, same_file, end_of_lengths};
ghost use Rattle.disk.specs.Slots.{held_in, first_in, file_of, OthersKeep};
ghost use Rattle.disk.specs.declared.file.File.{File as FileS};

use crate::file::File;
use basis::Memory;
use minor_version::Blob;
use std::alloc::Global;
use std::marker::Model;

/// What a file held at first, and what it holds.
#[derive(Debug, Drop)]
pub struct Slot {
    first: Blob,
    // None while it holds what it held at first.
    other: Option<Vec<u8>>,
}

impl Model for Slot {
    ghost use Rattle.std.specs.Option.{option_map_or};
    ghost use Rattle.disk.specs.Content.{Content};

    ghost Value = { Content };

    ghost view = { λ s. record { first = s.first; held = option_map_or (λ v. v.items) s.other s.first } };
}

impl Slot {
    fn new(first: Blob) -> Self
        ensures { result ≡ record { first = first; held = first } }
    {
        Slot { first, other: None }
    }

    fn first(&self) -> &[u8]
        ensures { result.now ≡ self.now.first }
    {
        self.first.bytes()
    }

    fn held(&self) -> &[u8]
        ensures { result.now ≡ self.now.held }
    {
        match &self.other {
            Some(held) => held.as_slice(),
            None => self.first.bytes(),
        }
    }

    // The bytes that it holds, to be changed and put back.
    fn take_held(&mut self, alloc: Global) -> Result<Vec<u8>, Memory>
        ensures ok { IfOk result (λ v. v.items ≡ self.old.held) }
        ensures err { OnErr result (self.new ≡ self.old) }
        ensures first { self.new.first ≡ self.old.first }
    {
        match self.other.take() {
            Some(held) => Ok(held),
            None => match Vec::from_slice(alloc, self.first.bytes()) {
                Ok(held) => Ok(held),
                Err(_) => Err(Memory),
            },
        }
    }

    fn write(&mut self, alloc: Global, at: u64, bytes: &[u8]) -> Result<(), Memory>
        requires { at ≤ length self.old.held }
        ensures ok { OnOk result (self.new.held ≡ patched self.old.held at bytes.now) }
        ensures err { OnErr result (self.new.held ≡ self.old.held) }
        ensures first { self.new.first ≡ self.old.first }
    {
        let mut held = self.take_held(alloc)?;
        let done = patch(&mut held, at as usize, bytes);
        self.other = Some(held);
        done
    }

    fn cut(&mut self, alloc: Global, to: u64) -> Result<(), Memory>
        ensures ok { OnOk result (self.new.held ≡ take to self.old.held) }
        ensures err { OnErr result (self.new.held ≡ self.old.held) }
        ensures first { self.new.first ≡ self.old.first }
    {
        let mut held = self.take_held(alloc)?;
        held.truncate(to as usize);
        self.other = Some(held);
        Ok(())
    }
}

// Puts the bytes over what is there.
fn overwrite(held: &mut [u8], at: usize, bytes: &[u8])
    requires { at + length bytes.now ≤ length held.old }
    ensures inside { (k : ℕ) → k < length bytes.now → get_or held.new (at + k) 0
        ≡ get_or bytes.now k 0 }
    ensures outside { (k : ℕ) → (k < at) ⊎ (at + length bytes.now ≤ k) → get_or held.new k 0
        ≡ get_or held.old k 0 }
{
    for k in 0..bytes.len() {
        held[at + k] = bytes[k];
    }
}

/// Puts the bytes at a place, over what is there and beyond the end. Without memory the bytes stay.
pub fn patch(held: &mut Vec<u8>, at: usize, bytes: &[u8]) -> Result<(), Memory>
    requires { at ≤ length held.old.items }
    ensures ok { OnOk result (held.new.items ≡ patched held.old.items at bytes.now) }
    ensures err { OnErr result (held.new.items ≡ held.old.items) }
{
    let (over, beyond) = bytes.split_at(bytes.len().min(held.len() - at));
    match held.extend_from_slice(beyond) {
        Ok(()) => {
            overwrite(held.as_mut_slice(), at, over);
            Ok(())
        }
        Err(_) => Err(Memory),
    }
}

/// Whether a write of so many bytes at a place stays below the end of lengths.
pub fn fits(at: u64, count: u64) -> bool
    ensures { IsTrue result ↔ (at + count < end_of_lengths) }
{
    at < 1 << 63 && count < (1 << 63) - at
}

/// The three files.
#[derive(Debug, Drop)]
pub struct Slots {
    choice: Slot,
    left: Slot,
    right: Slot,
}

impl Slots {
    pub fn new(choice: Blob, left: Blob, right: Blob) -> Self
        ensures first { first_in result ≡ record { choice = choice; left = left; right = right } }
        ensures held { (f : FileS) → held_in result f
            ≡ file_of (record { choice = choice; left = left; right = right }) f }
    {
        Slots {
            choice: Slot::new(choice),
            left: Slot::new(left),
            right: Slot::new(right),
        }
    }

    /// What a file held at first.
    pub fn first(&self, file: File) -> &[u8]
        ensures { result.now ≡ file_of (first_in self.now) file }
    {
        match file {
            File::Choice => self.choice.first(),
            File::Left => self.left.first(),
            File::Right => self.right.first(),
        }
    }

    /// What a file holds.
    pub fn held(&self, file: File) -> &[u8]
        ensures { result.now ≡ held_in self.now file }
    {
        match file {
            File::Choice => self.choice.held(),
            File::Left => self.left.held(),
            File::Right => self.right.held(),
        }
    }

    /// Puts the bytes into a file.
    pub fn write(&mut self, alloc: Global, file: File, at: u64, bytes: &[u8]) -> Result<(), Memory>
        requires { at ≤ length (held_in self.old file) }
        ensures ok { OnOk result (held_in self.new file
            ≡ patched (held_in self.old file) at bytes.now) }
        ensures err { OnErr result (held_in self.new file ≡ held_in self.old file) }
        ensures others { OthersKeep file self.old self.new }
        ensures first { first_in self.new ≡ first_in self.old }
    {
        match file {
            File::Choice => self.choice.write(alloc, at, bytes),
            File::Left => self.left.write(alloc, at, bytes),
            File::Right => self.right.write(alloc, at, bytes),
        }
    }

    /// Shortens a file.
    pub fn cut(&mut self, alloc: Global, file: File, to: u64) -> Result<(), Memory>
        ensures ok { OnOk result (held_in self.new file ≡ take to (held_in self.old file)) }
        ensures err { OnErr result (held_in self.new file ≡ held_in self.old file) }
        ensures others { OthersKeep file self.old self.new }
        ensures first { first_in self.new ≡ first_in self.old }
    {
        match file {
            File::Choice => self.choice.cut(alloc, to),
            File::Left => self.left.cut(alloc, to),
            File::Right => self.right.cut(alloc, to),
        }
    }
}
