//! Numbers that are noted in room that was made before.
ghost use Rattle.std.specs.Prelude.{◌≡◌, ◌≤◌, ◌+◌, ◌-◌, [], ◌∷◌, ◌++◌, OnOk, vec_len, vec_capacity};

use basis::Memory;
use std::alloc::Global;
use std::marker::Model;

/// Numbers, and the room that was made for more of them. A number that is noted in this room takes no memory.
#[derive(Debug, Drop)]
pub struct Notes {
    // None until room is made, since a `Vec` is made with its allocator.
    numbers: Option<Vec<u16>>,
}

impl Model for Notes {
    ghost use Rattle.std.specs.Prelude.{◌-◌, [], vec_len, vec_capacity};
    ghost use Rattle.std.specs.Option.{option_map_or};
    ghost use Rattle.scripts.specs.Notes.{Noted};

    ghost Value = { Noted };

    ghost view = { λ n. record {
      noted = option_map_or (λ v. v.items) n.numbers [];
      room = option_map_or (λ v. vec_capacity v - vec_len v) n.numbers 0;
    } };
}

// Makes room for so many more.
fn reserve(numbers: &mut Vec<u16>, count: usize) -> Result<(), Memory>
    ensures ok { OnOk result (count ≤ vec_capacity numbers.new - vec_len numbers.new) }
    ensures kept { numbers.new.items ≡ numbers.old.items }
    ensures room { vec_capacity numbers.old - vec_len numbers.old ≤ vec_capacity numbers.new - vec_len numbers.new }
{
    match numbers.reserve(count) {
        Ok(()) => Ok(()),
        Err(_) => Err(Memory),
    }
}

// Appends a number, for which there is room.
fn append(numbers: &mut Vec<u16>, number: u16)
    requires { 1 ≤ vec_capacity numbers.old - vec_len numbers.old }
    ensures items { numbers.new.items ≡ numbers.old.items ++ number ∷ [] }
    ensures room { vec_capacity numbers.old - vec_len numbers.old ≤ (vec_capacity numbers.new - vec_len numbers.new) + 1 }
{
    let _appended = numbers.push(number);
}

impl Notes {
    /// No number, and no room. Takes no memory.
    pub fn new() -> Self
        ensures { result ≡ record { noted = []; room = 0 } }
    {
        Notes { numbers: None }
    }

    /// The numbers, in order.
    pub fn noted(&self) -> &[u16]
        ensures { result.now ≡ self.now.noted }
    {
        match &self.numbers {
            Some(numbers) => numbers.as_slice(),
            None => &[],
        }
    }

    /// Makes room for so many more.
    pub fn make_room(&mut self, alloc: Global, count: usize) -> Result<(), Memory>
        ensures ok { OnOk result (count ≤ self.new.room) }
        ensures kept { self.new.noted ≡ self.old.noted }
        ensures room { self.old.room ≤ self.new.room }
    {
        let mut numbers = match self.numbers.take() {
            Some(numbers) => numbers,
            None => Vec::new(alloc),
        };
        let made = reserve(&mut numbers, count);
        self.numbers = Some(numbers);
        made
    }

    /// Notes a number. Takes no memory.
    pub fn note(&mut self, number: u16)
        requires { 1 ≤ self.old.room }
        ensures noted { self.new.noted ≡ self.old.noted ++ number ∷ [] }
        ensures room { self.old.room ≤ self.new.room + 1 }
    {
        if let Some(numbers) = &mut self.numbers {
            append(numbers, number);
        }
    }
}
