use basis::Memory;
use disk::Failed;
use std::error::Error;
use std::fmt;

/// Why a request has no reply.
#[derive(Clone, Copy, Debug, PartialEq, Eq)]
pub enum HandleFault {
    /// The disk failed. The service has ended.
    Disk,
    /// Memory ran out, before the disk was called. Nothing has changed.
    Memory,
}

impl From<Memory> for HandleFault {
    ghost use Rattle.std.specs.Prelude.{◌≡◌};
    ghost use Rattle.api_requests.specs.declared.fault.HandleFault.TheVariants.{Memory as NoMemory};

    ghost from_gives = { λ _ fault. fault ≡ NoMemory };

    fn from(_memory: Memory) -> HandleFault {
        HandleFault::Memory
    }
}

impl From<Failed> for HandleFault {
    ghost use Rattle.std.specs.Prelude.{◌≡◌};
    ghost use Rattle.api_requests.specs.declared.fault.HandleFault.TheVariants.{Disk as DiskFault};

    ghost from_gives = { λ _ fault. fault ≡ DiskFault };

    fn from(_failed: Failed) -> HandleFault {
        HandleFault::Disk
    }
}

impl fmt::Display for HandleFault {
    fn fmt<W: fmt::Write>(&self, f: &mut fmt::Formatter<W>) -> fmt::Result {
        match self {
            HandleFault::Disk => f.write_str("disk fault"),
            HandleFault::Memory => f.write_str("out of memory"),
        }
    }
}

impl Error for HandleFault {}
