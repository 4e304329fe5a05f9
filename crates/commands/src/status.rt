/// How the program ends. The numbers are those of the process's status.
#[derive(Clone, Copy, Debug, PartialEq, Eq)]
pub enum Status {
    /// The work was done, and all of its output written.
    Ok,
    /// The words are of no command.
    Usage,
    /// Memory ran out.
    Memory,
    /// The history could not be read.
    ReadFault,
    /// The output could not be written.
    WriteFault,
    /// The store's disk failed.
    DiskFault,
    /// The front of connections failed.
    FrontFault,
    /// The history was refused.
    History,
    /// An option's value was refused.
    Flags,
    /// The store was refused.
    Store,
    /// As many events were taken as a session takes.
    Spent,
}

impl Status {
    ghost use Rattle.std.specs.Prelude.{◌≡◌};
    ghost use Rattle.commands.specs.Numbers.{number_of};

    /// The status of the process.
    pub fn number(self) -> u8
        ensures { result ≡ number_of self }
    {
        match self {
            Status::Ok => 0,
            Status::Usage => 2,
            Status::Memory => 3,
            Status::ReadFault => 4,
            Status::WriteFault => 5,
            Status::DiskFault => 6,
            Status::FrontFault => 7,
            Status::History => 8,
            Status::Flags => 9,
            Status::Store => 10,
            Status::Spent => 11,
        }
    }
}
