//! Cases of the commands: a line of standard input is a question, and its answer the status and the lines written.
#![tactic(auto)]

use basis::Sequence;
use emu_server::{FailList, MemSink, MemSource, run_plain};
use example::WIDGETS;
use minor_version::{Blob, Memory};
use std::alloc::Global;
use std::io;

/// The calls of the streams that fail, by their numbers.
#[derive(Clone, Copy)]
struct Faults<'a> {
    reads: &'a [u64],
    writes: &'a [u64],
}

const NO_FAULTS: Faults<'static> = Faults {
    reads: &[],
    writes: &[],
};

fn words_of<'a>(alloc: Global, text: &'a str) -> Result<Sequence<&'a str>, Memory> {
    let mut words = Sequence::new();
    if !text.is_empty() {
        for word in text.split(' ') {
            words.push(alloc, word)?;
        }
    }
    Ok(words)
}

/// The number of the status, and the lines that were written, one behind the other.
fn ended(alloc: Global, words: &str, history: &[u8], faults: Faults<'_>) -> Result<String, Memory> {
    let words = words_of(alloc, words)?;
    let reads = FailList::new(alloc, faults.reads)?;
    let writes = FailList::new(alloc, faults.writes)?;
    let mut source = MemSource::new(Blob::copy(alloc, history)?, reads);
    let mut sink = MemSink::new(alloc, writes);
    let status = run_plain(alloc, words.items(), &mut source, &mut sink).number();
    let written = str::from_utf8(sink.written()).unwrap_or("no text");
    let lines = written.trim_end().replace(alloc, "\n", "; ")?;
    let text = format!(in alloc; "{status} | {lines}")?;
    Ok(text)
}

/// What words are answered of which the first says at which call a stream fails.
fn faulty(alloc: Global, rest: &str, is_read: bool) -> Result<String, Memory> {
    let (number, words) = rest.split_once(' ').unwrap_or((rest, ""));
    let calls = [number.parse::<u64>().unwrap_or(0)];
    let faults = if is_read {
        Faults {
            reads: &calls,
            writes: &[],
        }
    } else {
        Faults {
            reads: &[],
            writes: &calls,
        }
    };
    ended(alloc, words, WIDGETS.as_bytes(), faults)
}

/// What is answered to a history of so many blanks.
fn blank(alloc: Global, count: &str) -> Result<String, Memory> {
    let count = count.parse::<u16>().unwrap_or(0);
    let history = " ".repeat(alloc, usize::from(count) * 1024)?;
    let longer = format!(in alloc; "{} ", history.as_str())?;
    ended(alloc, "check", longer.as_bytes(), NO_FAULTS)
}

fn answer(alloc: Global, question: &str, rest: &str) -> Result<String, Memory> {
    match question {
        "words" => ended(alloc, rest, WIDGETS.as_bytes(), NO_FAULTS),
        "history" => {
            let history = rest.replace(alloc, "; ", "\n")?;
            ended(alloc, "check", history.as_bytes(), NO_FAULTS)
        }
        "blanks" => blank(alloc, rest),
        "read" => faulty(alloc, rest, true),
        "write" => faulty(alloc, rest, false),
        _ => {
            let text = String::from_str(alloc, "no question")?;
            Ok(text)
        }
    }
}

fn main(rt: HostRuntime) -> anyhow::Result<()> {
    let alloc = rt.alloc();
    for line in rt.lines(rt.alloc()) {
        let line = line?;
        let line = line.as_str();
        let (question, rest) = line.split_once(' ').unwrap_or((line, ""));
        let answered = answer(alloc, question, rest)?;
        println!(rt; "{line} | {}", answered.as_str())?;
    }
    Ok(())
}
