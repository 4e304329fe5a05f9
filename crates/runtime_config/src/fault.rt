ghost use Rattle.std.specs.Prelude.{◌≡◌};
ghost use Rattle.runtime_config.specs.Config.{cause_name};

use basis::Memory;
use std::error::Error;
use std::fmt;

/// Why a release refuses a piece of a runtime configuration.
#[derive(Clone, Copy, Debug, PartialEq, Eq)]
pub enum ConfigCause {
    /// There is no `=`.
    BadPair,
    /// The value is neither `true` nor `false`.
    BadBool,
    /// The key names nothing in the history.
    UnknownApi,
    /// The key names only versions that come with a later release.
    AfterEmulated,
    /// No version that the key names is live, and one was introduced by then.
    RemovedApi,
}

impl ConfigCause {
    /// The name of the cause, as it is printed.
    pub fn name(self) -> &'static str
        ensures { result.now ≡ cause_name self }
    {
        match self {
            ConfigCause::BadPair => "BadPair",
            ConfigCause::BadBool => "BadBool",
            ConfigCause::UnknownApi => "UnknownApi",
            ConfigCause::AfterEmulated => "AfterEmulated",
            ConfigCause::RemovedApi => "RemovedApi",
        }
    }
}

impl fmt::Display for ConfigCause {
    fn fmt<W: fmt::Write>(&self, f: &mut fmt::Formatter<W>) -> fmt::Result {
        f.write_str(self.name())
    }
}

/// Why a runtime configuration gave no served versions.
#[derive(Clone, Copy, Debug, PartialEq, Eq)]
pub enum ConfigFault {
    /// Memory ran out.
    Memory,
    /// The piece at this place, counted from 1 over all pieces between the commas, is refused.
    At { place: u64, cause: ConfigCause },
    /// The one key is `api/all`, with `false`: nothing would be served.
    OnlyAllFalse,
}

impl From<Memory> for ConfigFault {
    ghost use Rattle.runtime_config.specs.declared.fault.ConfigFault.TheVariants.{Memory as NoMemory};

    ghost from_gives = { λ _ e. e ≡ NoMemory };

    fn from(_memory: Memory) -> ConfigFault {
        ConfigFault::Memory
    }
}

impl fmt::Display for ConfigFault {
    fn fmt<W: fmt::Write>(&self, f: &mut fmt::Formatter<W>) -> fmt::Result {
        match self {
            ConfigFault::Memory => f.write_str("out of memory"),
            ConfigFault::At { place, cause } => write!(f, "piece {place}: {cause}"),
            ConfigFault::OnlyAllFalse => f.write_str("only api/all=false"),
        }
    }
}

impl Error for ConfigFault {}
