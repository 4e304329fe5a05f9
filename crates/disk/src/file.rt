/// The files of a disk.
#[derive(Clone, Copy, Debug, PartialEq, Eq)]
pub enum File {
    /// The file whose first byte chooses one of the other two.
    Choice,
    /// The first of the two journals.
    Left,
    /// The second.
    Right,
}
