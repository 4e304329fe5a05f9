//! Cases of gates and versions: a line of standard input is a change of the history or a question, and the answers to the
//! questions are the lines of output.
#![tactic(auto)]

mod gates;
mod history;
mod versions;
mod words;

use history::History;
use minor_version::{Memory, Minor, parse_plain};
use std::alloc::Global;
use std::io;

fn answer_of_text(alloc: Global, question: &str, rest: &str) -> Result<String, Memory> {
    match question {
        "word" => words::version(alloc, rest),
        "boolean" => words::boolean(alloc, rest),
        "pieces" => words::last(alloc, rest),
        _ => Ok(String::from_str(alloc, "no question")?),
    }
}

fn answer_at(
    alloc: Global,
    history: &History,
    e: Minor,
    question: &str,
    rest: &str,
) -> Result<String, Memory> {
    match question {
        "spec" => gates::spec(alloc, history, e, rest),
        "gates" => gates::rows(alloc, history, e, rest),
        "fault" => gates::fault(alloc, history, e, rest),
        "value" => gates::value(alloc, history, e, rest),
        "served" => versions::served(alloc, history, e, rest),
        "version" => versions::known(alloc, history, e, rest),
        _ => answer_of_text(alloc, question, rest),
    }
}

/// The answer of a release, which most questions begin with, or of the text.
fn answer(alloc: Global, history: &History, question: &str, rest: &str) -> Result<String, Memory> {
    let (at, behind) = rest.split_once(' ').unwrap_or((rest, ""));
    match parse_plain(at.as_bytes()) {
        Some(e) => answer_at(alloc, history, e, question, behind),
        None => answer_of_text(alloc, question, rest),
    }
}

/// Whether the line is a change of the history.
fn is_change(
    alloc: Global,
    history: &mut History,
    question: &str,
    rest: &str,
) -> Result<bool, Memory> {
    match question {
        "gate" => history.add_gate(alloc, rest),
        "api" => history.add_version(alloc, rest),
        _ => Ok(false),
    }
}

fn answer_line(rt: &HostRuntime, history: &mut History, line: &str) -> anyhow::Result<()> {
    let (question, rest) = line.split_once(' ').unwrap_or((line, ""));
    if is_change(rt.alloc(), history, question, rest)? {
        return Ok(());
    }
    let answered = answer(rt.alloc(), history, question, rest)?;
    println!(rt; "{line}: {answered}")?;
    Ok(())
}

fn main(rt: HostRuntime) -> anyhow::Result<()> {
    let mut history = History::new();
    for line in rt.lines(rt.alloc()) {
        answer_line(&rt, &mut history, line?.as_str())?;
    }
    Ok(())
}
