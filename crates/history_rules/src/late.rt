//! The rule on the dates of all entries (HR2).
ghost use Rattle.std.specs.Prelude.{ℕ, ◌≡◌, ◌≤◌};
ghost use Rattle.schemas.specs.Places.{FindsFirst};

use fields::{Field, Spell};
use gate_spec::GateEntry;
use lifecycle::ApiEntry;
use minor_version::Minor;

/// An entry with the release at which it is dated.
pub trait Entry {
    ghost since_of: { Self → ℕ };

    fn since(&self) -> Minor
        ensures { result ≡ since_of self.now };
}

impl Entry for GateEntry {
    ghost since_of = { λ x. x.since };

    fn since(&self) -> Minor {
        self.since
    }
}

impl Entry for ApiEntry {
    ghost since_of = { λ x. x.since };

    fn since(&self) -> Minor {
        self.since
    }
}

impl Entry for Field {
    ghost since_of = { λ x. x.since };

    fn since(&self) -> Minor {
        self.since
    }
}

impl Entry for Spell {
    ghost since_of = { λ x. x.since };

    fn since(&self) -> Minor {
        self.since
    }
}

/// The first entry dated after the last release.
pub fn first_late<E: Entry>(last: Minor, entries: &[E]) -> Option<u64>
    ensures { FindsFirst (λ earlier x. E.since_of x ≤ last) entries.now result }
{
    for (i, entry) in entries.iter().enumerate() {
        if entry.since() > last {
            return Some(i as u64 + 1);
        }
    }
    None
}
