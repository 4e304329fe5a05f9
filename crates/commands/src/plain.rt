//! The work of each command on an accepted history.
ghost use Rattle.std.specs.Prelude.{◌↔◌, IsTrue, IfOk};
ghost use Rattle.commands.specs.Answers.{Meets};
ghost use Rattle.commands.specs.Work.{IsPlain, IsWork};

use crate::answer::Answer;
use crate::options::given;
use crate::twins::MOST_REQUESTS;
use crate::{check, convert, cut, discover, fold, gates, twins};
use basis::Memory;
use schemas::Accepted;
use std::alloc::Global;
use words::Command;

/// Whether the command reads a history and prints an answer, without a store.
pub fn is_plain(command: &Command) -> bool
    ensures { IsTrue result ↔ IsPlain command.now }
{
    match command {
        Command::Check
        | Command::Fold
        | Command::Cut { .. }
        | Command::Discover { .. }
        | Command::Gates { .. }
        | Command::Convert { .. } => true,
        Command::Twin { size, .. } => *size <= MOST_REQUESTS,
        Command::Serve { .. } | Command::Replay { .. } => false,
    }
}

/// The work of such a command on an accepted history.
pub fn work(alloc: Global, command: &Command, accepted: &Accepted) -> Result<Answer, Memory>
    requires { IsPlain command.now }
    ensures { IfOk result (Meets (IsWork command.now accepted.now)) }
{
    match command {
        Command::Check => check::answer(alloc, accepted),
        Command::Fold => fold::answer(alloc, accepted),
        Command::Cut { at } => cut::answer(alloc, at.as_str(), accepted),
        Command::Discover { emulated, runtime } => {
            discover::answer(alloc, given(emulated), given(runtime), accepted)
        }
        Command::Gates { emulated, features } => {
            gates::answer(alloc, given(emulated), given(features), accepted)
        }
        Command::Convert {
            emulated,
            object,
            to,
        } => convert::answer(
            alloc,
            given(emulated),
            object.as_str(),
            to.as_str(),
            accepted,
        ),
        Command::Twin { flags, seed, size } => {
            twins::answer(alloc, flags, *seed, *size, accepted)
        }
        Command::Serve { .. } | Command::Replay { .. } => unreachable!(),
    }
}
