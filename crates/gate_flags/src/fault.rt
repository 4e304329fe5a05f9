ghost use Rattle.std.specs.Prelude.{◌≡◌};
ghost use Rattle.gate_flags.specs.Flags.{cause_name};

use basis::Memory;
use std::error::Error;
use std::fmt;

/// Why a release refuses a piece of a feature gate text.
#[derive(Clone, Copy, Debug, PartialEq, Eq)]
pub enum GateCause {
    /// There is no `=`.
    Missing,
    /// The value is no boolean word.
    BadBool,
    /// The release has no such gate, or has it no more.
    Unknown,
    /// The gate comes only with a later release.
    PreAlpha,
    /// The gate is locked to this value, and another one is given.
    Locked(bool),
}

impl GateCause {
    /// The name of the cause, as it is printed.
    pub fn name(self) -> &'static str
        ensures { result.now ≡ cause_name self }
    {
        match self {
            GateCause::Missing => "Missing",
            GateCause::BadBool => "BadBool",
            GateCause::Unknown => "Unknown",
            GateCause::PreAlpha => "PreAlpha",
            GateCause::Locked(_) => "Locked",
        }
    }
}

impl fmt::Display for GateCause {
    fn fmt<W: fmt::Write>(&self, f: &mut fmt::Formatter<W>) -> fmt::Result {
        f.write_str(self.name())
    }
}

/// Why a feature gate text gave no values.
#[derive(Clone, Copy, Debug, PartialEq, Eq)]
pub enum GateFault {
    /// Memory ran out.
    Memory,
    /// The piece at this place, counted from 1 over all pieces between the commas, is refused.
    At { place: u64, cause: GateCause },
}

impl From<Memory> for GateFault {
    ghost use Rattle.gate_flags.specs.declared.fault.GateFault.TheVariants.{Memory as NoMemory};

    ghost from_gives = { λ _ e. e ≡ NoMemory };

    fn from(_memory: Memory) -> GateFault {
        GateFault::Memory
    }
}

impl fmt::Display for GateFault {
    fn fmt<W: fmt::Write>(&self, f: &mut fmt::Formatter<W>) -> fmt::Result {
        match self {
            GateFault::Memory => f.write_str("out of memory"),
            GateFault::At { place, cause } => write!(f, "piece {place}: {cause}"),
        }
    }
}

impl Error for GateFault {}
