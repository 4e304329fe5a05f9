use crate::array::Array;

/// A rule that a history breaks, with an entry that breaks it: its array, and its number there, from 1, or the top of
/// the document and 0.
#[derive(Clone, Copy, Debug, PartialEq, Eq)]
pub struct Broken {
    pub rule: u8,
    pub array: Array,
    pub index: u64,
}
