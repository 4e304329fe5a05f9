//! Cases of histories as documents: a line of standard input is a question, and its answer the document that is written,
//! with a comment behind it: how many entries are read back from it, and whether as many were written. The questions are
//! `whole`, `fold` and `cut` with a release for the product's example, and `read` with a document of the caller's own, in
//! which a semicolon and a blank stand for the end of a line.
#![tactic(auto)]

use example::WIDGETS;
use history_cut::cutoff;
use history_fold::fold;
use history_reader::read_history;
use history_rules::check;
use history_toml::to_toml;
use minor_version::parse_plain;
use schemas::{Accepted, History};
use std::alloc::Global;

fn example_history(alloc: Global) -> Option<Accepted> {
    let history = read_history(alloc, WIDGETS.as_bytes()).ok()?;
    check(alloc, history).ok()
}

fn counted(alloc: Global, history: &History) -> anyhow::Result<String> {
    let gates = history.gates.items().len();
    let apis = history.apis.items().len();
    let fields = history.fields.items().len();
    let spells = history.spells.items().len();
    Ok(format!(in alloc; "{gates} gate, {apis} api, {fields} field, {spells} spell entries")?)
}

/// How many entries are read from a document, or the refusal as it is printed.
fn read_back(alloc: Global, document: &[u8]) -> anyhow::Result<String> {
    match read_history(alloc, document) {
        Ok(history) => counted(alloc, &history),
        Err(fault) => Ok(format!(in alloc; "{fault}")?),
    }
}

fn verdict(written: &str, read: &str) -> &'static str {
    if written == read {
        "the same"
    } else {
        "others"
    }
}

/// The document of a history, and what is read back from it.
fn told(alloc: Global, history: &History) -> anyhow::Result<String> {
    let document = to_toml(alloc, history)?;
    let written = counted(alloc, history)?;
    let read = read_back(alloc, document.bytes())?;
    let verdict = verdict(written.as_str(), read.as_str());
    let document = document.as_str();
    let read = read.as_str();
    Ok(format!(in alloc; "{document}# {read}: {verdict}")?)
}

fn cut_at(alloc: Global, accepted: &Accepted, release: &str) -> anyhow::Result<String> {
    let Some(o) = parse_plain(release.as_bytes()) else {
        return Ok(String::from_str(alloc, "no release")?);
    };
    match cutoff(alloc, accepted, o) {
        Ok(cut) => told(alloc, cut.history()),
        Err(fault) => Ok(format!(in alloc; "{fault}")?),
    }
}

fn folded(alloc: Global, accepted: &Accepted) -> anyhow::Result<String> {
    let folded = fold(alloc, accepted)?;
    told(alloc, folded.history())
}

fn of_document(alloc: Global, text: &str) -> anyhow::Result<String> {
    let document = text.replace(alloc, "; ", "\n")?;
    match read_history(alloc, document.as_str().as_bytes()) {
        Ok(history) => told(alloc, &history),
        Err(fault) => Ok(format!(in alloc; "{fault}")?),
    }
}

fn answer(alloc: Global, accepted: &Accepted, line: &str) -> anyhow::Result<String> {
    let (question, rest) = line.split_once(' ').unwrap_or((line, ""));
    match question {
        "whole" => told(alloc, accepted.history()),
        "fold" => folded(alloc, accepted),
        "cut" => cut_at(alloc, accepted, rest),
        "read" => of_document(alloc, rest),
        _ => Ok(String::from_str(alloc, "no question")?),
    }
}

fn main(rt: HostRuntime) -> anyhow::Result<()> {
    let alloc = rt.alloc();
    let Some(accepted) = example_history(alloc) else {
        println!(rt; "not accepted")?;
        return Ok(());
    };
    for line in rt.lines(rt.alloc()) {
        let line = line?;
        let answered = answer(alloc, &accepted, line.as_str())?;
        println!(rt; "{}", answered.as_str())?;
    }
    Ok(())
}
