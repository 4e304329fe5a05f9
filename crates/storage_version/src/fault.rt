use basis::Memory;
use minor_version::Text;
use std::error::Error;
use std::fmt;

/// Why a stored body has no fields.
#[derive(Debug, Drop)]
pub enum DecodeFault {
    /// The release doesn't read it: the text of its `apiVersion`, or `?` where it has none.
    Undecodable { version: Text },
    /// Memory ran out.
    Memory,
}

impl From<Memory> for DecodeFault {
    ghost use Rattle.std.specs.Prelude.{◌≡◌};
    ghost use Rattle.storage_version.specs.declared.fault.DecodeFault.TheVariants.{Memory as NoMemory};

    ghost from_gives = { λ _ fault. fault ≡ NoMemory };

    fn from(_memory: Memory) -> DecodeFault {
        DecodeFault::Memory
    }
}

impl fmt::Display for DecodeFault {
    fn fmt<W: fmt::Write>(&self, f: &mut fmt::Formatter<W>) -> fmt::Result {
        match self {
            DecodeFault::Undecodable { version } => {
                f.write_str("not readable: ")?;
                f.write_str(version.as_str())
            }
            DecodeFault::Memory => f.write_str("out of memory"),
        }
    }
}

impl Error for DecodeFault {}
