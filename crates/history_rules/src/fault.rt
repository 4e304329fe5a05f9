use schemas::Array;
use std::error::Error;
use std::fmt;

/// Why a history isn't accepted.
#[derive(Clone, Copy, Debug, PartialEq, Eq)]
pub enum CheckFault {
    /// Memory ran out.
    Memory,
    /// The lowest rule that the history breaks, with the first entry that breaks it: its array and its number there,
    /// from 1, or the top of the document and 0.
    Broken { rule: u8, array: Array, index: u64 },
}

impl fmt::Display for CheckFault {
    fn fmt<W: fmt::Write>(&self, f: &mut fmt::Formatter<W>) -> fmt::Result {
        match self {
            CheckFault::Memory => f.write_str("out of memory"),
            CheckFault::Broken { rule, array, index } => {
                write!(f, "rule HR{rule} at {} {index}", array.name())
            }
        }
    }
}

impl Error for CheckFault {}
