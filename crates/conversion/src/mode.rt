/// Where an object comes from.
#[derive(Clone, Copy, Debug, PartialEq, Eq)]
pub enum Mode {
    /// From a request, whose absent fields take their defaults.
    Body,
    /// From the store, or from what was shown.
    Stored,
}
