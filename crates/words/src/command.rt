use minor_version::Text;
use std::error::Error;
use std::fmt;

/// The texts of the options of version and flags. None where an option isn't given.
#[derive(Debug, Drop)]
pub struct FlagTexts {
    /// The release to emulate.
    pub emulated: Option<Text>,
    /// The release that is to open the store.
    pub min_compatibility: Option<Text>,
    /// Values of feature gates.
    pub features: Option<Text>,
    /// API versions to serve.
    pub runtime: Option<Text>,
}

/// What a command line asks for. None where an option isn't given.
#[derive(Debug, Drop)]
pub enum Command {
    /// The group list of a release.
    Discover {
        emulated: Option<Text>,
        runtime: Option<Text>,
    },
    /// The feature gates of a release.
    Gates {
        emulated: Option<Text>,
        features: Option<Text>,
    },
    /// Whether a history is accepted.
    Check,
    /// The history as its last release knows it.
    Fold,
    /// The history up to a release.
    Cut {
        at: Text,
    },
    /// An object in another version of its resource.
    Convert {
        emulated: Option<Text>,
        object: Text,
        to: Text,
    },
    /// A generated workload on two servers that are to answer alike: which one, and how many requests.
    Twin {
        flags: FlagTexts,
        seed: u64,
        size: u32,
    },
    /// A server on a port of the loopback address, for so many connections, over the store in a folder.
    Serve {
        flags: FlagTexts,
        store: Text,
        port: u16,
        connections: u32,
    },
    /// A server that takes its events from a script file, over the store in a folder.
    Replay {
        flags: FlagTexts,
        store: Text,
        script: Text,
    },
}

/// Why words gave no command.
#[derive(Clone, Copy, Debug, PartialEq, Eq)]
pub enum WordsFault {
    /// They are of no command.
    Usage,
    /// Memory ran out.
    Memory,
}

impl fmt::Display for WordsFault {
    fn fmt<W: fmt::Write>(&self, f: &mut fmt::Formatter<W>) -> fmt::Result {
        f.write_str(match self {
            WordsFault::Usage => "no command",
            WordsFault::Memory => "out of memory",
        })
    }
}

impl Error for WordsFault {}
