use basis::Memory;
use disk::File;
use flagged_view::FlagsFault;
use gate_flags::{GateCause, GateFault};
use minor_version::{Minor, Text};
use object_journal::Key;
use release_choice::VersionFault;
use runtime_config::{ConfigCause, ConfigFault};
use std::error::Error;
use std::fmt;
use store_session::StoreFault;

/// Why a history isn't served, or no longer. The first that holds decides, in this order; memory may run out at each step.
#[derive(Debug, Drop)]
pub enum ServeFault {
    /// The release to emulate is refused.
    Emulated(VersionFault),
    /// The minimum compatibility is refused, for this emulated release.
    Least {
        emulated: Minor,
        cause: VersionFault,
    },
    /// The piece at this place of the feature gates is refused.
    Features {
        place: u64,
        cause: GateCause,
    },
    /// The piece at this place of the runtime configuration is refused.
    Runtime {
        place: u64,
        cause: ConfigCause,
    },
    /// The runtime configuration is `api/all=false` alone.
    OnlyAllFalse,
    /// A file of the store breaks the journal's grammar at this place.
    NotAStore {
        file: File,
        at: u64,
    },
    /// The record under this key is in a version, as its body tells it, that this release doesn't read.
    Undecodable {
        key: Key,
        version: Text,
        minor: Minor,
    },
    /// The disk failed.
    Disk,
    /// No event could be taken.
    Front,
    /// So many events were taken as a session takes at most.
    Spent,
    /// Memory ran out.
    Memory,
}

impl From<FlagsFault> for ServeFault {
    ghost use Rattle.std.specs.Prelude.{◌≡◌};
    ghost use Rattle.served_history.specs.Faults.{of_flags};

    ghost from_gives = { λ flags fault. fault ≡ of_flags flags };

    fn from(flags: FlagsFault) -> ServeFault {
        match flags {
            FlagsFault::Features(GateFault::At { place, cause }) => {
                ServeFault::Features { place, cause }
            }
            FlagsFault::Features(GateFault::Memory) => ServeFault::Memory,
            FlagsFault::Runtime(ConfigFault::At { place, cause }) => {
                ServeFault::Runtime { place, cause }
            }
            FlagsFault::Runtime(ConfigFault::OnlyAllFalse) => ServeFault::OnlyAllFalse,
            FlagsFault::Runtime(ConfigFault::Memory) => ServeFault::Memory,
        }
    }
}

impl From<Memory> for ServeFault {
    ghost use Rattle.std.specs.Prelude.{◌≡◌};
    ghost use Rattle.served_history.specs.declared.fault.ServeFault.TheVariants.{Memory as NoMemory};

    ghost from_gives = { λ _ fault. fault ≡ NoMemory };

    fn from(_memory: Memory) -> ServeFault {
        ServeFault::Memory
    }
}

impl From<StoreFault> for ServeFault {
    ghost use Rattle.std.specs.Prelude.{◌≡◌};
    ghost use Rattle.served_history.specs.Faults.{of_store};

    ghost from_gives = { λ store fault. fault ≡ of_store store };

    fn from(store: StoreFault) -> ServeFault {
        match store {
            StoreFault::NotAStore { file, at } => ServeFault::NotAStore { file, at },
            StoreFault::Undecodable {
                key,
                version,
                minor,
            } => ServeFault::Undecodable {
                key,
                version,
                minor,
            },
            StoreFault::Disk => ServeFault::Disk,
            StoreFault::Front => ServeFault::Front,
            StoreFault::Spent => ServeFault::Spent,
            StoreFault::Memory => ServeFault::Memory,
        }
    }
}

impl fmt::Display for ServeFault {
    fn fmt<W: fmt::Write>(&self, f: &mut fmt::Formatter<W>) -> fmt::Result {
        match self {
            ServeFault::Emulated(_) => f.write_str("emulated release refused"),
            ServeFault::Least { .. } => f.write_str("minimum compatibility refused"),
            ServeFault::Features { .. } => f.write_str("feature gates refused"),
            ServeFault::Runtime { .. } => f.write_str("runtime configuration refused"),
            ServeFault::OnlyAllFalse => f.write_str("only api/all=false"),
            ServeFault::NotAStore { .. } => f.write_str("not a store"),
            ServeFault::Undecodable { .. } => f.write_str("not readable"),
            ServeFault::Disk => f.write_str("disk fault"),
            ServeFault::Front => f.write_str("front fault"),
            ServeFault::Spent => f.write_str("too many events"),
            ServeFault::Memory => f.write_str("out of memory"),
        }
    }
}

impl Error for ServeFault {}
