ghost use Rattle.std.specs.Prelude.{◌≡◌, IfOk};
ghost use Rattle.words.specs.Commands.{IsPlaces, places_in};
ghost use Rattle.words.specs.Settings.{texts_of};

use crate::command::{Command, WordsFault};
use crate::read::read_words;
use basis::Memory;
use minor_version::Text;
use std::alloc::Global;

/// Where a command works: the folder of its store, its port and number of connections, or its script.
#[derive(Debug, Drop)]
pub struct Places {
    pub store: Option<Text>,
    pub port: Option<u16>,
    pub connections: u32,
    pub script: Option<Text>,
}

impl Places {
    ghost use Rattle.std.specs.Prelude.{◌≡◌};
    ghost use Rattle.words.specs.Commands.{nowhere};

    fn nowhere() -> Places
        ensures { result ≡ nowhere }
    {
        Places {
            store: None,
            port: None,
            connections: 0,
            script: None,
        }
    }
}

fn places_in(command: Command) -> Places
    ensures { result ≡ places_in command }
{
    match command {
        Command::Serve {
            store,
            port,
            connections,
            ..
        } => Places {
            store: Some(store),
            port: Some(port),
            connections,
            script: None,
        },
        Command::Replay { store, script, .. } => Places {
            store: Some(store),
            port: None,
            connections: 0,
            script: Some(script),
        },
        _ => Places::nowhere(),
    }
}

/// Where the command of the words works: nowhere, but for a server.
pub fn places_of(alloc: Global, words: &[&str]) -> Result<Places, Memory>
    ensures { IfOk result (IsPlaces (texts_of words.now)) }
{
    match read_words(alloc, words) {
        Ok(command) => Ok(places_in(command)),
        Err(WordsFault::Usage) => Ok(Places::nowhere()),
        Err(WordsFault::Memory) => Err(Memory),
    }
}
