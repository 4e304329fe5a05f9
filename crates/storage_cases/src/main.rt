//! Cases of disks, streams, journals and stores: a line of standard input is a question, and its answer a line of output.
#![tactic(auto)]

mod bytes;
mod calls;
mod fault_files;
mod files;
mod memory;
mod store;
mod streams;

use minor_version::Memory;
use std::io;

fn answer(rt: &HostRuntime, question: &str, rest: &str) -> Result<String, Memory> {
    let alloc = rt.alloc();
    match question {
        "memory" => memory::answers(alloc, rest),
        "stops" => memory::stops(alloc, rest),
        "source" => streams::reads(alloc, rest),
        "sink" => streams::writes(alloc, rest),
        "journal" => store::journal(alloc, rest),
        "put" => store::put_answer(alloc, rest),
        "records" => store::records_after_stops(alloc, rest),
        "ready" => store::refusal_answer(alloc, rest),
        "changes" => store::changes_answer(alloc, rest),
        _ => files::answer(rt, question, rest),
    }
}

fn answer_line(rt: &HostRuntime, line: &str) -> anyhow::Result<()> {
    let (question, rest) = line.split_once(' ').unwrap_or((line, ""));
    let answered = answer(rt, question, rest)?;
    println!(rt; "{line}: {answered}")?;
    Ok(())
}

fn main(rt: HostRuntime) -> anyhow::Result<()> {
    for line in rt.lines(rt.alloc()) {
        answer_line(&rt, line?.as_str())?;
    }
    Ok(())
}
