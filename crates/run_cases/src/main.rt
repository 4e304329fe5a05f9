//! Cases of the whole program over a world in memory: a line of standard input has a name, the flags of a server, settings
//! and a script, parted by bars, and its answer is what was sent, how serving ended, and what is left on the disk. The
//! settings: `keep` keeps the file of records for later cases, `again` begins with the file that was kept, `left=` gives its
//! bytes in hexadecimal digits, `cut=` cuts the example history at a release, `disk=`, `front=`, `read=` and `write=` list
//! the calls that fail, `stops` asks for what stops leave, `cuts` runs the case with its first piece cut at each byte, and
//! `bytes` byte by byte.
#![tactic(auto)]

mod case;
mod course;
mod events;
mod told;

use basis::Memory;
use case::{Case, bytes_of, case_of, setting};
use course::{Ended, run_over};
use events::{byte_by_byte, first_piece, in_two, script_of};
use minor_version::Blob;
use scripts::ScriptFault;
use std::alloc::Global;

/// The bytes that the file of records holds at first.
fn first_left(alloc: Global, case: Case<'_>, before: &Blob) -> Result<Blob, Memory> {
    if setting(case.settings, "again").is_some() {
        return Blob::copy(alloc, before.bytes());
    }
    bytes_of(alloc, setting(case.settings, "left=").unwrap_or(""))
}

fn bad_line(alloc: Global, number: u64, left: Blob) -> Result<Ended, Memory> {
    let told = format!(in alloc; "bad line {number}\n")?;
    Ok(Ended { told, left })
}

/// Runs the case with this script.
fn run_script(alloc: Global, case: Case<'_>, script: &str, before: &Blob) -> Result<Ended, Memory> {
    let left = first_left(alloc, case, before)?;
    match script_of(alloc, script) {
        Ok(script) => run_over(alloc, case, left, script),
        Err(ScriptFault::BadLine { number }) => bad_line(alloc, number, left),
        Err(ScriptFault::Memory) => Err(Memory),
    }
}

fn cut_case(
    alloc: Global,
    case: Case<'_>,
    piece: &[u8],
    at: usize,
    before: &Blob,
) -> Result<Ended, Memory> {
    let script = in_two(alloc, piece, at)?;
    run_script(alloc, case, script.as_str(), before)
}

/// What is told of the cuts, and what was told of the last of them.
#[derive(Debug, Drop)]
struct Cuts {
    told: String,
    last: String,
}

/// Tells what differs from what was told before.
fn note_cut(alloc: Global, cuts: &mut Cuts, told: String, at: usize) -> Result<(), Memory> {
    if told.as_str() == cuts.last.as_str() {
        return Ok(());
    }
    let head = format!(in alloc; "from byte {at}:\n")?;
    cuts.told.push_str(head.as_str())?;
    cuts.told.push_str(told.as_str())?;
    cuts.last = told;
    Ok(())
}

/// Runs the case with its piece cut at this byte.
fn run_cut(
    alloc: Global,
    case: Case<'_>,
    piece: &[u8],
    at: usize,
    before: &Blob,
    cuts: &mut Cuts,
) -> Result<(), Memory> {
    let ended = cut_case(alloc, case, piece, at, before)?;
    note_cut(alloc, cuts, ended.told, at)
}

/// Runs the case once for each byte at which its piece can be cut.
fn run_each_cut(
    alloc: Global,
    case: Case<'_>,
    piece: &[u8],
    before: &Blob,
    cuts: &mut Cuts,
) -> Result<(), Memory> {
    for at in 1..piece.len() {
        match run_cut(alloc, case, piece, at, before, cuts) {
            Ok(()) => {}
            Err(_) => return Err(Memory),
        }
    }
    Ok(())
}

fn run_cuts(alloc: Global, case: Case<'_>, piece: &[u8], before: &Blob) -> Result<String, Memory> {
    let mut cuts = Cuts {
        told: String::new(alloc),
        last: String::new(alloc),
    };
    run_each_cut(alloc, case, piece, before, &mut cuts)?;
    let count = piece.len();
    let tail = format!(in alloc; "of {count} bytes\n")?;
    cuts.told.push_str(tail.as_str())?;
    Ok(cuts.told)
}

fn end_of_cuts(
    alloc: Global,
    case: Case<'_>,
    piece: &[u8],
    before: &Blob,
) -> Result<Ended, Memory> {
    let left = Blob::copy(alloc, b"")?;
    let told = run_cuts(alloc, case, piece, before)?;
    Ok(Ended { told, left })
}

fn end_of_bytes(
    alloc: Global,
    case: Case<'_>,
    piece: &[u8],
    before: &Blob,
) -> Result<Ended, Memory> {
    let script = byte_by_byte(alloc, piece)?;
    run_script(alloc, case, script.as_str(), before)
}

fn run_in_parts(alloc: Global, case: Case<'_>, before: &Blob) -> Result<Ended, Memory> {
    let Ok(script) = script_of(alloc, case.script) else {
        return Err(Memory);
    };
    let piece = first_piece(&script);
    if setting(case.settings, "bytes").is_some() {
        end_of_bytes(alloc, case, piece, before)
    } else {
        end_of_cuts(alloc, case, piece, before)
    }
}

fn run_case(alloc: Global, case: Case<'_>, before: &Blob) -> Result<Ended, Memory> {
    if setting(case.settings, "cuts").is_some() || setting(case.settings, "bytes").is_some() {
        run_in_parts(alloc, case, before)
    } else {
        run_script(alloc, case, case.script, before)
    }
}

/// What is told of the case. Where it asks for it, its file of records is kept.
fn answer(alloc: Global, case: Case<'_>, before: &mut Blob) -> Result<String, Memory> {
    let Ended { told, left } = run_case(alloc, case, before)?;
    if setting(case.settings, "keep").is_some() {
        *before = left;
    }
    Ok(told)
}

fn main(rt: HostRuntime) -> anyhow::Result<()> {
    let alloc = rt.alloc();
    let mut before = Blob::copy(alloc, b"")?;
    for line in rt.lines(rt.alloc()) {
        let line = line?;
        let case = case_of(line.as_str());
        let answered = answer(alloc, case, &mut before)?;
        let name = case.name;
        println!(rt; "{name}\n{}", answered.as_str())?;
    }
    Ok(())
}
