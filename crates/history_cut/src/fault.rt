use basis::Memory;
use std::error::Error;
use std::fmt;

/// Why a history isn't cut.
#[derive(Clone, Copy, Debug, PartialEq, Eq)]
pub enum CutFault {
    /// The release is below the history's first one or above its last.
    OutOfRange,
    /// Memory ran out.
    Memory,
}

impl fmt::Display for CutFault {
    fn fmt<W: fmt::Write>(&self, f: &mut fmt::Formatter<W>) -> fmt::Result {
        f.write_str(match self {
            CutFault::OutOfRange => "out of range",
            CutFault::Memory => "out of memory",
        })
    }
}

impl Error for CutFault {}

impl From<Memory> for CutFault {
    ghost use Rattle.std.specs.Prelude.{◌≡◌};
    ghost use Rattle.history_cut.specs.declared.fault.CutFault.TheVariants.{Memory as NoMemory};

    ghost from_gives = { λ _ fault. fault ≡ NoMemory };

    fn from(_memory: Memory) -> CutFault {
        CutFault::Memory
    }
}
