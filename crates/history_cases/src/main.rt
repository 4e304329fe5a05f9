//! Cases of history documents: a line of standard input is a question, and its answer a line of output. The questions are
//! `read`, `check` and `means` a document, `fields` for the rules on fields and spellings alone, `blanks` for a document of so
//! many blanks, `byte` for one of one byte, and `gate`, `group`, `resource`, `kind` and `id` for the shape of a name. In a
//! document a semicolon and a blank stand for the end of a line.
#![tactic(auto)]

mod words;

use crate::words::words;
use field_rules::first_broken;
use history_reader::read_history;
use history_rules::check;
use schemas::{Broken, History, is_field_id, is_gate_name, is_group, is_kind, is_resource};
use std::alloc::Global;

fn text_of(alloc: Global, text: &str) -> anyhow::Result<String> {
    Ok(String::from_str(alloc, text)?)
}

fn yes_or_no(alloc: Global, holds: bool) -> anyhow::Result<String> {
    text_of(alloc, if holds { "yes" } else { "no" })
}

/// What the reader answers: `read`, or the refusal as it is printed.
fn reading(alloc: Global, document: &[u8]) -> anyhow::Result<String> {
    match read_history(alloc, document) {
        Ok(_) => text_of(alloc, "read"),
        Err(fault) => Ok(format!(in alloc; "{fault}")?),
    }
}

/// The history that a document is, as words, or the refusal as it is printed.
fn meaning(alloc: Global, document: &[u8]) -> anyhow::Result<String> {
    match read_history(alloc, document) {
        Ok(history) => words(alloc, &history),
        Err(fault) => Ok(format!(in alloc; "{fault}")?),
    }
}

fn verdict(alloc: Global, history: History) -> anyhow::Result<String> {
    match check(alloc, history) {
        Ok(_) => text_of(alloc, "accepted"),
        Err(fault) => Ok(format!(in alloc; "{fault}")?),
    }
}

/// Whether the history of a document is accepted, or the rule that it breaks.
fn checked(alloc: Global, document: &[u8]) -> anyhow::Result<String> {
    match read_history(alloc, document) {
        Ok(history) => verdict(alloc, history),
        Err(fault) => Ok(format!(in alloc; "{fault}")?),
    }
}

fn told(alloc: Global, broken: Option<Broken>) -> anyhow::Result<String> {
    match broken {
        Some(Broken { rule, array, index }) => {
            let array = array.name();
            Ok(format!(in alloc; "HR{rule} at {array} {index}")?)
        }
        None => text_of(alloc, "lawful"),
    }
}

fn broken(alloc: Global, history: &History) -> anyhow::Result<String> {
    let Some(first) = history.first else {
        return text_of(alloc, "no first release");
    };
    let broken = first_broken(
        alloc,
        first,
        history.gates.items(),
        history.apis.items(),
        history.fields.items(),
        history.spells.items(),
    )?;
    told(alloc, broken)
}

/// The rule on fields and spellings that the history of a document breaks, whether or not it breaks others.
fn on_fields(alloc: Global, document: &[u8]) -> anyhow::Result<String> {
    match read_history(alloc, document) {
        Ok(history) => broken(alloc, &history),
        Err(fault) => Ok(format!(in alloc; "{fault}")?),
    }
}

fn blanks(alloc: Global, number: &str) -> anyhow::Result<String> {
    match number.parse::<u32>() {
        Ok(number) => {
            let text = vec![in alloc; b' '; number as usize]?;
            reading(alloc, text.as_slice())
        }
        Err(_) => text_of(alloc, "no number"),
    }
}

fn byte(alloc: Global, number: &str) -> anyhow::Result<String> {
    match number.parse::<u8>() {
        Ok(byte) => reading(alloc, &[byte]),
        Err(_) => text_of(alloc, "no byte"),
    }
}

fn of_document(alloc: Global, question: &str, text: &str) -> anyhow::Result<String> {
    let document = text.replace(alloc, "; ", "\n")?;
    let document = document.as_str().as_bytes();
    match question {
        "read" => reading(alloc, document),
        "means" => meaning(alloc, document),
        "check" => checked(alloc, document),
        "fields" => on_fields(alloc, document),
        _ => text_of(alloc, "no question"),
    }
}

fn answer(alloc: Global, question: &str, rest: &str) -> anyhow::Result<String> {
    let name = rest.as_bytes();
    match question {
        "gate" => yes_or_no(alloc, is_gate_name(name)),
        "group" => yes_or_no(alloc, is_group(name)),
        "resource" => yes_or_no(alloc, is_resource(name)),
        "kind" => yes_or_no(alloc, is_kind(name)),
        "id" => yes_or_no(alloc, is_field_id(name)),
        "blanks" => blanks(alloc, rest),
        "byte" => byte(alloc, rest),
        _ => of_document(alloc, question, rest),
    }
}

fn main(rt: HostRuntime) -> anyhow::Result<()> {
    let alloc = rt.alloc();
    for line in rt.lines(rt.alloc()) {
        let line = line?;
        let line = line.as_str();
        let (question, rest) = line.split_once(' ').unwrap_or((line, ""));
        let answered = answer(alloc, question, rest)?;
        println!(rt; "{}", answered.as_str())?;
    }
    Ok(())
}
