use std::error::Error;
use std::fmt;

/// Why the text of a release is refused.
#[derive(Clone, Copy, Debug, PartialEq, Eq)]
pub enum VersionFault {
    /// It names no release.
    NotAVersion,
    /// It names one that can't be chosen.
    OutOfRange,
}

impl fmt::Display for VersionFault {
    fn fmt<W: fmt::Write>(&self, f: &mut fmt::Formatter<W>) -> fmt::Result {
        match self {
            VersionFault::NotAVersion => f.write_str("not a version"),
            VersionFault::OutOfRange => f.write_str("out of range"),
        }
    }
}

impl Error for VersionFault {}
