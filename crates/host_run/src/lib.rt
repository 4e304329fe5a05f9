//! The program on its host: the words of the process, its standard streams, and the world at the places that the words
//! name.
#![tactic(auto)]

ghost use Rattle.std.specs.Prelude.{◌≡◌};
ghost use Rattle.host_run.specs.Endings.{ending_without_world};

mod ending;

use emu_server::{Status, StdSink, StdSource};
pub use ending::Ending;
use real_world::{RealWorld, WorldFault};
use std::alloc::{AllocError, Global};
use std::env;
use std::io::ErrorKind;
use words::places_of;

fn borrowed(alloc: Global, words: &[String]) -> Result<Vec<&str>, AllocError> {
    let mut texts = Vec::new(alloc);
    for word in words {
        texts.push(word.as_str())?;
    }
    Ok(texts)
}

// Without a world there is nothing to run: a line tells why. Where it can't be written, the status tells it all the same.
fn end_without_world(rt: &impl Print, fault: WorldFault) -> Ending
    ensures { result ≡ ending_without_world fault }
{
    if fault != WorldFault::Memory {
        let _ = println!(rt; "{fault}");
    }
    Ending::without_world(fault)
}

fn run_words(rt: &HostRuntime, words: &[&str]) -> Ending {
    let alloc = rt.alloc();
    let Ok(places) = places_of(alloc, words) else {
        return Ending::Ran(Status::Memory);
    };
    let mut world = match RealWorld::from(rt, alloc, &places) {
        Ok(world) => world,
        Err(fault) => return end_without_world(rt, fault),
    };
    let mut history = StdSource::new(rt);
    let mut out = StdSink::new(rt);
    Ending::Ran(emu_server::run(alloc, words, &mut history, &mut out, &mut world))
}

/// Runs the program on the words of the process, on its standard streams, and in the world at the places of the words.
pub fn run(rt: &HostRuntime) -> Ending {
    let alloc = rt.alloc();
    let words = match env::args(rt) {
        Ok(words) => words,
        // Words that aren't UTF-8 are of no command, as no words are.
        Err(error) if error.kind() == ErrorKind::InvalidData => return run_words(rt, &[]),
        Err(_) => return Ending::Ran(Status::Memory),
    };
    let Ok(words) = words.skip(1).collect::<Vec<String>>(alloc) else {
        return Ending::Ran(Status::Memory);
    };
    match borrowed(alloc, words.as_slice()) {
        Ok(texts) => run_words(rt, texts.as_slice()),
        Err(_) => Ending::Ran(Status::Memory),
    }
}
