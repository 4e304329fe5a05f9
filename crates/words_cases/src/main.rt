//! Cases of the words of a command line: a line of standard input is a question, and its answer a line of output.
#![tactic(auto)]

use basis::Sequence;
use minor_version::{Memory, Text};
use std::alloc::{AllocError, Global};
use std::io;
use words::{Command, FlagTexts, WordsFault, places_of, read_words};

fn words_of<'a>(alloc: Global, text: &'a str) -> Result<Sequence<&'a str>, Memory> {
    let mut words = Sequence::new();
    if !text.is_empty() {
        for word in text.split(' ') {
            words.push(alloc, word)?;
        }
    }
    Ok(words)
}

fn text_of(text: &Option<Text>) -> &str {
    match text {
        Some(text) => text.as_str(),
        None => "(none)",
    }
}

fn pair(
    alloc: Global,
    name: &str,
    first: &Option<Text>,
    second: &Option<Text>,
) -> Result<String, AllocError> {
    let first = text_of(first);
    let second = text_of(second);
    format!(in alloc; "{name} [{first}] [{second}]")
}

fn flags_text(alloc: Global, flags: &FlagTexts) -> Result<String, AllocError> {
    let emulated = text_of(&flags.emulated);
    let least = text_of(&flags.min_compatibility);
    let features = text_of(&flags.features);
    let runtime = text_of(&flags.runtime);
    format!(in alloc; "[{emulated}] [{least}] [{features}] [{runtime}]")
}

fn conversion(
    alloc: Global,
    emulated: &Option<Text>,
    object: &Text,
    to: &Text,
) -> Result<String, AllocError> {
    let emulated = text_of(emulated);
    let object = object.as_str();
    let to = to.as_str();
    format!(in alloc; "convert [{emulated}] [{object}] [{to}]")
}

fn twin(alloc: Global, flags: &FlagTexts, seed: u64, size: u32) -> Result<String, AllocError> {
    let flags = flags_text(alloc, flags)?;
    let flags = flags.as_str();
    format!(in alloc; "twin {flags} {seed} {size}")
}

fn serve(
    alloc: Global,
    flags: &FlagTexts,
    store: &Text,
    port: u16,
    connections: u32,
) -> Result<String, AllocError> {
    let flags = flags_text(alloc, flags)?;
    let flags = flags.as_str();
    let store = store.as_str();
    format!(in alloc; "serve {flags} [{store}] {port} {connections}")
}

fn replay(
    alloc: Global,
    flags: &FlagTexts,
    store: &Text,
    script: &Text,
) -> Result<String, AllocError> {
    let flags = flags_text(alloc, flags)?;
    let flags = flags.as_str();
    let store = store.as_str();
    let script = script.as_str();
    format!(in alloc; "replay {flags} [{store}] [{script}]")
}

fn command_text(alloc: Global, command: &Command) -> Result<String, AllocError> {
    match command {
        Command::Discover { emulated, runtime } => pair(alloc, "discover", emulated, runtime),
        Command::Gates { emulated, features } => pair(alloc, "gates", emulated, features),
        Command::Check => String::from_str(alloc, "check"),
        Command::Fold => String::from_str(alloc, "fold"),
        Command::Cut { at } => {
            let at = at.as_str();
            format!(in alloc; "cut [{at}]")
        }
        Command::Convert {
            emulated,
            object,
            to,
        } => conversion(alloc, emulated, object, to),
        Command::Twin { flags, seed, size } => twin(alloc, flags, *seed, *size),
        Command::Serve {
            flags,
            store,
            port,
            connections,
        } => serve(alloc, flags, store, *port, *connections),
        Command::Replay {
            flags,
            store,
            script,
        } => replay(alloc, flags, store, script),
    }
}

fn read(alloc: Global, text: &str) -> Result<String, Memory> {
    let words = words_of(alloc, text)?;
    match read_words(alloc, words.items()) {
        Ok(command) => Ok(command_text(alloc, &command)?),
        Err(WordsFault::Usage) => Ok(String::from_str(alloc, "usage")?),
        Err(WordsFault::Memory) => Err(Memory),
    }
}

fn places(alloc: Global, text: &str) -> Result<String, Memory> {
    let words = words_of(alloc, text)?;
    let places = places_of(alloc, words.items())?;
    let store = text_of(&places.store);
    let script = text_of(&places.script);
    let port = places.port.unwrap_or(0);
    let connections = places.connections;
    let text = format!(in alloc; "[{store}] {port} {connections} [{script}]")?;
    Ok(text)
}

fn answer(alloc: Global, question: &str, rest: &str) -> Result<String, Memory> {
    match question {
        "words" => read(alloc, rest),
        "places" => places(alloc, rest),
        _ => Ok(String::from_str(alloc, "no question")?),
    }
}

fn main(rt: HostRuntime) -> anyhow::Result<()> {
    let alloc = rt.alloc();
    for line in rt.lines(rt.alloc()) {
        let line = line?;
        let line = line.as_str();
        let (question, rest) = line.split_once(' ').unwrap_or((line, ""));
        let answered = answer(alloc, question, rest)?;
        println!(rt; "{line}: {}", answered.as_str())?;
    }
    Ok(())
}
