/// What a session served, up to the end of its front.
#[derive(Clone, Copy, Debug, PartialEq, Eq)]
pub struct Served {
    /// How many requests were answered, whether their replies went or not.
    pub requests: u64,
    /// The revision of the state at the end.
    pub revision: u64,
}
