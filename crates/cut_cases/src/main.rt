//! Cases of a history that is cut or folded: a line of standard input names a release, and its answer is a line of output:
//! of which releases the product's example speaks where it is cut there, and how many entries it has then. The line `whole`
//! asks the same of the example as it is, and the line `fold` of the example folded.
#![tactic(auto)]

use example::WIDGETS;
use history_cut::cutoff;
use history_fold::fold;
use history_reader::read_history;
use history_rules::check;
use minor_version::{Minor, parse_plain};
use schemas::Accepted;
use std::alloc::Global;

fn example_history(alloc: Global) -> Option<Accepted> {
    let history = read_history(alloc, WIDGETS.as_bytes()).ok()?;
    check(alloc, history).ok()
}

fn told(alloc: Global, accepted: &Accepted) -> anyhow::Result<String> {
    let first = accepted.first().number();
    let last = accepted.last().number();
    let history = accepted.history();
    let gates = history.gates.items().len();
    let apis = history.apis.items().len();
    let fields = history.fields.items().len();
    let spells = history.spells.items().len();
    Ok(format!(in alloc;
        "1.{first} to 1.{last}: {gates} gate, {apis} api, {fields} field, {spells} spell entries"
    )?)
}

fn cut_at(alloc: Global, accepted: &Accepted, o: Minor) -> anyhow::Result<String> {
    match cutoff(alloc, accepted, o) {
        Ok(cut) => told(alloc, &cut),
        Err(fault) => Ok(format!(in alloc; "{fault}")?),
    }
}

fn folded(alloc: Global, accepted: &Accepted) -> anyhow::Result<String> {
    let folded = fold(alloc, accepted)?;
    told(alloc, &folded)
}

fn answer(alloc: Global, accepted: &Accepted, line: &str) -> anyhow::Result<String> {
    match parse_plain(line.as_bytes()) {
        Some(o) => cut_at(alloc, accepted, o),
        None if line == "whole" => told(alloc, accepted),
        None if line == "fold" => folded(alloc, accepted),
        None => Ok(String::from_str(alloc, "no release")?),
    }
}

fn main(rt: HostRuntime) -> anyhow::Result<()> {
    let alloc = rt.alloc();
    let Some(accepted) = example_history(alloc) else {
        println!(rt; "not accepted")?;
        return Ok(());
    };
    for line in rt.lines(rt.alloc()) {
        let line = line?;
        let answered = answer(alloc, &accepted, line.as_str())?;
        println!(rt; "{line}: {answered}")?;
    }
    Ok(())
}
