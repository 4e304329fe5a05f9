//! The script of a world: its file, and the replies that it prints.
ghost use Rattle.std.specs.Prelude.{ℕ, List, IfOk, IfErr};
ghost use Rattle.scripts.specs.Reading.{Means};
ghost use Rattle.real_world.specs.Faults.{IsFaultOfText, IsFaultOfSome};

use crate::fault::WorldFault;
use scripts::Script;
use std::alloc::Global;
use std::io::Read;
use std::rt::Files;
use std::{fs, io};

// The script that the text writes.
fn script_of(alloc: Global, text: &[u8]) -> Result<Script, WorldFault>
    ensures ok { IfOk result (Means text.now) }
    ensures err { IfErr result (IsFaultOfText text.now) }
{
    let script = Script::read(alloc, text)?;
    Ok(script)
}

/// Reads the script of a file.
pub fn read_script<R: Files>(rt: &R, alloc: Global, path: &str) -> Result<Script, WorldFault>
    ensures ok { IfOk result (λ script. (text : List ℕ) × Means text script) }
    ensures err { IfErr result IsFaultOfSome }
{
    let mut file = fs::open(rt, path)?;
    let mut text = Vec::new(alloc);
    file.read_to_end(&mut text)?;
    script_of(alloc, text.as_slice())
}

/// Prints a reply: its connection and its length, and its bytes.
pub fn print_reply(rt: &impl Print, c: u32, bytes: &[u8]) -> io::Result<()> {
    let length = bytes.len();
    println!(rt; "> {c} {length}")?;
    rt.write_all(bytes)
}
