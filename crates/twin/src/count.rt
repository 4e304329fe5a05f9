/// What a workload came to.
#[derive(Clone, Copy, Debug, PartialEq, Eq)]
pub struct TwinCount {
    /// How many requests were answered.
    pub requests: u64,
    /// How many bytes were sent.
    pub bytes: u64,
    /// The revision of the state at the end.
    pub revision: u64,
}
