use std::error::Error;
use std::fmt;

/// Why a session ended before its front did.
#[derive(Clone, Copy, Debug, PartialEq, Eq)]
pub enum SessionFault {
    /// No event could be taken.
    Front,
    /// The disk failed. The service has ended.
    Disk,
    /// Memory ran out, before the disk was called.
    Memory,
    /// So many events were taken as a session takes at most.
    Spent,
}

impl fmt::Display for SessionFault {
    fn fmt<W: fmt::Write>(&self, f: &mut fmt::Formatter<W>) -> fmt::Result {
        match self {
            SessionFault::Front => f.write_str("front fault"),
            SessionFault::Disk => f.write_str("disk fault"),
            SessionFault::Memory => f.write_str("out of memory"),
            SessionFault::Spent => f.write_str("too many events"),
        }
    }
}

impl Error for SessionFault {}
