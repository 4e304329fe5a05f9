//! Why there is no world.
use basis::Memory;
use disk::AtFault;
use scripts::ScriptFault;
use std::error::Error;
use std::io::ErrorKind;
use std::{fmt, io};

/// Why there is no world at the places.
#[derive(Clone, Copy, Debug, PartialEq, Eq)]
pub enum WorldFault {
    /// The first line of the script, numbered from 1, that writes no event or one that may not follow those before it.
    BadLine { number: u64 },
    /// The machine answered an error: the script can't be read, the port can't be bound, or another program holds the
    /// store.
    Failed,
    /// Memory ran out.
    Memory,
}

impl fmt::Display for WorldFault {
    fn fmt<W: fmt::Write>(&self, f: &mut fmt::Formatter<W>) -> fmt::Result {
        match self {
            WorldFault::BadLine { number } => write!(f, "script: line {number}"),
            WorldFault::Failed => f.write_str("world fault"),
            WorldFault::Memory => Memory.fmt(f),
        }
    }
}

impl Error for WorldFault {}

impl From<io::Error> for WorldFault {
    ghost use Rattle.std.specs.Prelude.{◌≡◌};
    ghost use Rattle.std.specs.IoError.{error_kind};
    ghost use Rattle.std.specs.declared.io.ErrorKind.TheVariants.{OutOfMemory};
    ghost use Rattle.real_world.specs.Faults.{fault_of_kind};

    ghost from_gives = { λ error fault. fault ≡ fault_of_kind (error_kind error) };

    fn from(error: io::Error) -> WorldFault {
        match error.kind() {
            ErrorKind::OutOfMemory => WorldFault::Memory,
            _ => WorldFault::Failed,
        }
    }
}

impl From<AtFault> for WorldFault {
    ghost use Rattle.std.specs.Prelude.{◌≡◌};
    ghost use Rattle.real_world.specs.Faults.{fault_of_disk};

    ghost from_gives = { λ fault world. world ≡ fault_of_disk fault };

    fn from(fault: AtFault) -> WorldFault {
        match fault {
            AtFault::Failed => WorldFault::Failed,
            AtFault::Memory => WorldFault::Memory,
        }
    }
}

impl From<ScriptFault> for WorldFault {
    ghost use Rattle.std.specs.Prelude.{◌≡◌};
    ghost use Rattle.real_world.specs.Faults.{fault_of_script};

    ghost from_gives = { λ fault world. world ≡ fault_of_script fault };

    fn from(fault: ScriptFault) -> WorldFault {
        match fault {
            ScriptFault::BadLine { number } => WorldFault::BadLine { number },
            ScriptFault::Memory => WorldFault::Memory,
        }
    }
}
