ghost use Rattle.std.specs.Prelude.{◌≡◌, IfOk, IfErr};
ghost use Rattle.words.specs.Commands.{IsCommand};
ghost use Rattle.words.specs.Settings.{texts_of};
ghost use Rattle.words.specs.declared.command.Command.{Command as TheCommand};

use crate::command::{Command, WordsFault};
use crate::rows::command_of;
use crate::settings::read_settings;
use std::alloc::Global;

/// The command that the words ask for. They are those behind the program's name.
pub fn read_words(alloc: Global, words: &[&str]) -> Result<Command, WordsFault>
    ensures ok { IfOk result (IsCommand (texts_of words.now)) }
    ensures usage { IfErr result (λ e. e ≡ WordsFault.Usage →
        (c : TheCommand) → ¬ IsCommand (texts_of words.now) c) }
{
    if words.is_empty() {
        return Err(WordsFault::Usage);
    }
    let (_, behind) = words.split_at(1);
    match read_settings(alloc, behind) {
        Ok(settings) => command_of(alloc, words[0], behind, settings.as_slice()),
        Err(fault) => Err(fault),
    }
}
