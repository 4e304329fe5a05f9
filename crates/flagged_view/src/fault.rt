use gate_flags::GateFault;
use runtime_config::ConfigFault;
use std::error::Error;
use std::fmt;

/// Why flag texts make no view of a release.
#[derive(Clone, Copy, Debug, PartialEq, Eq)]
pub enum FlagsFault {
    /// The feature gate text is refused, or memory ran out at it.
    Features(GateFault),
    /// The runtime configuration is refused, or memory ran out behind the feature gate text.
    Runtime(ConfigFault),
}

impl fmt::Display for FlagsFault {
    fn fmt<W: fmt::Write>(&self, f: &mut fmt::Formatter<W>) -> fmt::Result {
        match self {
            FlagsFault::Features(fault) => fault.fmt(f),
            FlagsFault::Runtime(fault) => fault.fmt(f),
        }
    }
}

impl Error for FlagsFault {}
