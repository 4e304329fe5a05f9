ghost use Rattle.std.specs.Prelude.{◌≡◌, ◌↔◌, IfOk, IsTrue, Contains};

use basis::Memory;
use std::alloc::Global;
use std::marker::Model;

/// The numbers of the calls, counted from 1, that an object in memory answers by a failure.
#[derive(Debug, Drop)]
pub struct FailList {
    numbers: Vec<u64>,
}

impl Model for FailList {
    ghost use Rattle.std.specs.Prelude.{List, ℕ};

    ghost Value = { List ℕ };

    ghost view = { λ l. l.numbers.items };
}

impl FailList {
    /// The list of these numbers.
    pub fn new(alloc: Global, numbers: &[u64]) -> Result<Self, Memory>
        ensures { IfOk result (λ l. l ≡ numbers.now) }
    {
        match Vec::from_slice(alloc, numbers) {
            Ok(numbers) => Ok(FailList { numbers }),
            Err(_) => Err(Memory),
        }
    }

    /// Whether the call with this number fails.
    pub fn contains(&self, number: u64) -> bool
        ensures { IsTrue result ↔ Contains self.now number }
    {
        self.numbers.contains(&number)
    }
}
