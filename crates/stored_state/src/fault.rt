use basis::Memory;
use minor_version::{Minor, Text};
use object_journal::Key;
use std::error::Error;
use std::fmt;

/// Why no server starts from the records of a store.
#[derive(Debug, Drop)]
pub enum StartFault {
    /// A release doesn't read a record of a kind that is live there: the first such record in key order, tried as the
    /// emulated release reads it, and then as the minimum compatibility does. The version is the text of the body's
    /// `apiVersion`, or `?` where it has none.
    Undecodable {
        key: Key,
        version: Text,
        minor: Minor,
    },
    /// Memory ran out.
    Memory,
}

impl From<Memory> for StartFault {
    ghost use Rattle.std.specs.Prelude.{◌≡◌};
    ghost use Rattle.stored_state.specs.declared.fault.StartFault.TheVariants.{Memory as NoMemory};

    ghost from_gives = { λ _ fault. fault ≡ NoMemory };

    fn from(_memory: Memory) -> StartFault {
        StartFault::Memory
    }
}

impl fmt::Display for StartFault {
    fn fmt<W: fmt::Write>(&self, f: &mut fmt::Formatter<W>) -> fmt::Result {
        match self {
            StartFault::Undecodable { version, .. } => {
                f.write_str("not readable: ")?;
                f.write_str(version.as_str())
            }
            StartFault::Memory => f.write_str("out of memory"),
        }
    }
}

impl Error for StartFault {}
