use crate::answer::Answer;
use basis::Memory;

/// Why a request goes no further: it is refused with this answer, or memory ran out.
#[derive(Debug, Drop)]
pub(crate) enum Stop {
    Refused(Answer),
    Memory,
}

impl From<Memory> for Stop {
    ghost use Rattle.std.specs.Prelude.{◌≡◌};
    ghost use Rattle.plain_machine.specs.declared.stop.Stop.TheVariants.{Memory as NoMemory};

    ghost from_gives = { λ _ stop. stop ≡ NoMemory };

    fn from(_memory: Memory) -> Stop {
        Stop::Memory
    }
}
