//! Cases of a world in memory: a line of standard input is a script, with its line ends escaped, the length of the buffer
//! and the numbers of the calls that fail, parted by bars. Its answer is what `next` gives, each piece being replied to,
//! and then what was sent.
#![tactic(auto)]

ghost use Rattle.std.specs.Prelude.{◌<◌, ◌≤◌, length};

use basis::Memory;
use disk::{FailList, MemDisk};
use minor_version::Blob;
use scripts::{Script, ScriptFault};
use std::alloc::{AllocError, Global};
use world::{Event, Front, MemWorld, Sent};

/// More calls than a script of the cases needs.
const MOST_CALLS: u16 = 1_000;

/// The longest buffer of the cases.
const MOST_ROOM: usize = 16;

fn text_of(bytes: &[u8]) -> &str {
    str::from_utf8(bytes).unwrap_or("not UTF-8")
}

/// The bytes that the text means, with its line ends escaped.
fn meant(alloc: Global, text: &str) -> Result<Vec<u8>, Memory> {
    let mut bytes = Vec::new(alloc);
    let mut is_escaped = false;
    for byte in text.as_bytes() {
        if *byte == b'\\' && !is_escaped {
            is_escaped = true;
            continue;
        }
        let byte = if is_escaped && *byte == b'n' {
            b'\n'
        } else {
            *byte
        };
        is_escaped = false;
        match bytes.push(byte) {
            Ok(()) => {}
            Err(_) => return Err(Memory),
        }
    }
    Ok(bytes)
}

/// The numbers, parted by commas.
fn numbers(alloc: Global, text: &str) -> Result<Vec<u64>, Memory> {
    let mut numbers = Vec::new(alloc);
    for word in text.split(',') {
        if let Ok(number) = word.parse::<u64>() {
            match numbers.push(number) {
                Ok(()) => {}
                Err(_) => return Err(Memory),
            }
        }
    }
    Ok(numbers)
}

fn note(out: &mut String, text: &str) -> Result<(), Memory> {
    out.push_str(text)?;
    Ok(())
}

fn piece_text(alloc: Global, c: u32, bytes: &[u8], went: bool) -> Result<String, AllocError> {
    let text = text_of(bytes);
    let reply = if went { "" } else { " unsent" };
    format!(in alloc; " piece {c} [{text}]{reply} |")
}

fn sent_text(alloc: Global, sent: &Sent) -> Result<String, AllocError> {
    let went = if sent.went { "went" } else { "failed" };
    format!(in alloc; " {}@{}/{} {went}", sent.c, sent.at, sent.seen)
}

/// Replies to the connection, and says whether the reply went.
fn reply(alloc: Global, world: &mut MemWorld, c: u32) -> Result<bool, Memory>
    requires { c < world.old.beside.opened }
{
    let bytes = Blob::copy(alloc, b"ok")?;
    world.room()?;
    Ok(world.send(c, bytes, false).is_ok())
}

/// Takes an event, and writes it. False at the end.
fn step(
    alloc: Global,
    world: &mut MemWorld,
    buffer: &mut [u8],
    out: &mut String,
) -> Result<bool, Memory>
    requires { 1 ≤ length buffer.old }
{
    match world.next(buffer) {
        Ok(Event::Opened(c)) => {
            let text = format!(in alloc; " opened {c} |")?;
            note(out, text.as_str())?;
        }
        Ok(Event::Piece(c, count)) => {
            let went = reply(alloc, world, c)?;
            let text = piece_text(alloc, c, &buffer[..count], went)?;
            note(out, text.as_str())?;
        }
        Ok(Event::Closed(c)) => {
            let text = format!(in alloc; " closed {c} |")?;
            note(out, text.as_str())?;
        }
        Ok(Event::End) => {
            note(out, " end")?;
            return Ok(false);
        }
        Err(_) => note(out, " failed |")?,
    }
    Ok(true)
}

fn play(
    alloc: Global,
    world: &mut MemWorld,
    buffer: &mut [u8],
    out: &mut String,
) -> Result<(), Memory>
    requires { 1 ≤ length buffer.old }
{
    for _ in 0..MOST_CALLS {
        match step(alloc, world, buffer, out) {
            Ok(true) => {}
            Ok(false) => return Ok(()),
            Err(_) => return Err(Memory),
        }
    }
    Ok(())
}

fn note_sent(alloc: Global, sent: &Sent, out: &mut String) -> Result<(), Memory> {
    let text = sent_text(alloc, sent)?;
    note(out, text.as_str())
}

fn note_sends(alloc: Global, sends: &[Sent], out: &mut String) -> Result<(), Memory> {
    for sent in sends {
        match note_sent(alloc, sent, out) {
            Ok(()) => {}
            Err(_) => return Err(Memory),
        }
    }
    Ok(())
}

fn empty_disk(alloc: Global) -> Result<MemDisk, Memory> {
    let choice = Blob::copy(alloc, &[])?;
    let left = Blob::copy(alloc, &[])?;
    let right = Blob::copy(alloc, &[])?;
    let fail = FailList::new(alloc, &[])?;
    Ok(MemDisk::new(alloc, choice, left, right, fail))
}

fn run(alloc: Global, script: Script, room: usize, fails: &str) -> Result<String, Memory> {
    let numbers = numbers(alloc, fails)?;
    let fail = FailList::new(alloc, numbers.as_slice())?;
    let disk = empty_disk(alloc)?;
    let mut world = MemWorld::new(alloc, disk, script, fail);
    let mut storage = [0; MOST_ROOM];
    let count = room.max(1).min(MOST_ROOM);
    let mut out = String::new(alloc);
    play(alloc, &mut world, &mut storage[..count], &mut out)?;
    note_sends(alloc, world.sends(), &mut out)?;
    Ok(out)
}

fn answer(alloc: Global, line: &str) -> Result<String, Memory> {
    let (text, rest) = line.split_once('|').unwrap_or((line, ""));
    let (room, fails) = rest.split_once('|').unwrap_or((rest, ""));
    let room = room.parse::<u16>().unwrap_or(1) as usize;
    let bytes = meant(alloc, text)?;
    match Script::read(alloc, bytes.as_slice()) {
        Ok(script) => run(alloc, script, room, fails),
        Err(ScriptFault::BadLine { number }) => Ok(format!(in alloc; " bad line {number}")?),
        Err(ScriptFault::Memory) => Err(Memory),
    }
}

fn main(rt: HostRuntime) -> anyhow::Result<()> {
    let alloc = rt.alloc();
    for line in rt.lines(rt.alloc()) {
        let line = line?;
        let line = line.as_str();
        let answered = answer(alloc, line)?;
        println!(rt; "{line}:{}", answered.as_str())?;
    }
    Ok(())
}
