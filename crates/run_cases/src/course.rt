//! What a case is run on, and its run.
ghost use Rattle.std.specs.Prelude.{IfOk};
ghost use Rattle.world.specs.Fronts.{IsAtStart};

use crate::case::{Case, failing, history};
use crate::told;
use basis::{Memory, Sequence};
use disk::{File, MemDisk};
use emu_server::{MemSink, MemSource, run};
use minor_version::Blob;
use scripts::Script;
use std::alloc::Global;
use world::MemWorld;

/// What a case leaves: what is told of it, and what its file of records holds.
#[derive(Debug, Drop)]
pub struct Ended {
    pub told: String,
    pub left: Blob,
}

fn words_of(alloc: Global, text: &str) -> Result<Sequence<&str>, Memory> {
    let mut words = Sequence::new();
    for word in text.split(' ') {
        if !word.is_empty() {
            words.push(alloc, word)?;
        }
    }
    Ok(words)
}

fn disk_with(alloc: Global, settings: &str, left: Blob) -> Result<MemDisk, Memory> {
    let choice = Blob::copy(alloc, b"")?;
    let right = Blob::copy(alloc, b"")?;
    let fail = failing(alloc, settings, "disk=")?;
    Ok(MemDisk::new(alloc, choice, left, right, fail))
}

fn world_with(alloc: Global, settings: &str, left: Blob, script: Script) -> Result<MemWorld, Memory>
    ensures { IfOk result (λ w. IsAtStart w.beside) }
{
    let disk = disk_with(alloc, settings, left)?;
    let fail = failing(alloc, settings, "front=")?;
    Ok(MemWorld::new(alloc, disk, script, fail))
}

/// Runs the words on the streams and the world. The number of the status.
fn status_of(
    alloc: Global,
    words: &[&str],
    source: &mut MemSource,
    sink: &mut MemSink,
    world: &mut MemWorld,
) -> u8
    requires { IsAtStart world.old.beside }
{
    run(alloc, words, source, sink, world).number()
}

fn line_of(alloc: Global, status: u8, sink: &MemSink) -> Result<String, Memory> {
    let line = str::from_utf8(sink.written())
        .unwrap_or("no text")
        .trim_end();
    Ok(format!(in alloc; "{status}: {line}\n")?)
}

fn source_of(alloc: Global, settings: &str) -> Result<MemSource, Memory> {
    let reads = failing(alloc, settings, "read=")?;
    let bytes = history(alloc, settings)?;
    Ok(MemSource::new(bytes, reads))
}

fn sink_of(alloc: Global, settings: &str) -> Result<MemSink, Memory> {
    let writes = failing(alloc, settings, "write=")?;
    Ok(MemSink::new(alloc, writes))
}

fn outcome_to(
    alloc: Global,
    settings: &str,
    words: &[&str],
    source: &mut MemSource,
    world: &mut MemWorld,
) -> Result<String, Memory>
    requires { IsAtStart world.old.beside }
{
    let mut sink = sink_of(alloc, settings)?;
    let status = status_of(alloc, words, source, &mut sink, world);
    line_of(alloc, status, &sink)
}

fn outcome_from(
    alloc: Global,
    settings: &str,
    words: &[&str],
    world: &mut MemWorld,
) -> Result<String, Memory>
    requires { IsAtStart world.old.beside }
{
    let mut source = source_of(alloc, settings)?;
    outcome_to(alloc, settings, words, &mut source, world)
}

/// Runs the words on the world. The status and the line that was written.
fn outcome(
    alloc: Global,
    settings: &str,
    text: &str,
    world: &mut MemWorld,
) -> Result<String, Memory>
    requires { IsAtStart world.old.beside }
{
    let words = words_of(alloc, text)?;
    outcome_from(alloc, settings, words.items(), world)
}

fn outcome_with(alloc: Global, case: Case<'_>, world: &mut MemWorld) -> Result<String, Memory>
    requires { IsAtStart world.old.beside }
{
    let flags = case.flags;
    let text = format!(in alloc; "replay --store=store --script=script {flags}")?;
    outcome(alloc, case.settings, text.as_str(), world)
}

/// What the file of records holds behind a stop at the end.
fn left_by(alloc: Global, disk: &MemDisk) -> Result<Blob, Memory> {
    let stopped = disk.after_stop(disk.moment(), 0)?;
    Blob::copy(alloc, stopped.held_bytes(File::Left))
}

fn end_told(alloc: Global, case: Case<'_>, line: &str, world: &MemWorld) -> Result<Ended, Memory> {
    let told = told::of_world(alloc, case, line, world)?;
    let left = left_by(alloc, world.disk())?;
    Ok(Ended { told, left })
}

/// Runs the case, over what the file of records holds.
pub fn run_over(
    alloc: Global,
    case: Case<'_>,
    left: Blob,
    script: Script,
) -> Result<Ended, Memory> {
    let mut world = world_with(alloc, case.settings, left, script)?;
    let line = outcome_with(alloc, case, &mut world)?;
    end_told(alloc, case, line.as_str(), &world)
}
