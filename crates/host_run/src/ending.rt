use emu_server::Status;
use real_world::WorldFault;

/// How the process ends.
#[derive(Clone, Copy, Debug, PartialEq, Eq)]
pub enum Ending {
    /// As the command does.
    Ran(Status),
    /// The machine has no world at the places of the words.
    NoWorld,
    /// The text of the script is no script.
    BadScript,
}

impl Ending {
    ghost use Rattle.std.specs.Prelude.{◌≡◌};
    ghost use Rattle.host_run.specs.Endings.{ending_number, ending_without_world};

    /// The end where there is no world.
    pub fn without_world(fault: WorldFault) -> Self
        ensures { result ≡ ending_without_world fault }
    {
        match fault {
            WorldFault::BadLine { .. } => Ending::BadScript,
            WorldFault::Failed => Ending::NoWorld,
            WorldFault::Memory => Ending::Ran(Status::Memory),
        }
    }

    /// The status of the process.
    pub fn number(self) -> u8
        ensures { result ≡ ending_number self }
    {
        match self {
            Ending::Ran(status) => status.number(),
            Ending::NoWorld => 12,
            Ending::BadScript => 13,
        }
    }
}
