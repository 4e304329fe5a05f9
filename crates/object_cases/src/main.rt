//! Cases of fields and of objects: a line of standard input is a question, and its answer a line of output.
#![tactic(auto)]

mod listings;
mod maps;
mod objects;
mod rows;
mod values;

use listings::listed_places;
use maps::{are_same, changes};
use minor_version::Memory;
use objects::{BODY, STORED, WHOLE, is_object, shown_object};
use rows::{are_apart_paths, is_lawful_table, is_path_of_field, keeps_order};
use std::alloc::Global;
use std::io;
use values::{has_form, is_default};

/// What holds, of the questions that ask for no more.
fn holds(alloc: Global, question: &str, rest: &str) -> Result<bool, Memory> {
    match question {
        "path" => is_path_of_field(alloc, rest),
        "apart" => are_apart_paths(alloc, rest),
        "default" => is_default(alloc, rest),
        "same" => are_same(alloc, rest),
        "order" => keeps_order(alloc, rest),
        "table" => is_lawful_table(alloc, rest),
        "object" => is_object(alloc, rest),
        _ => Ok(question == "form" && has_form(rest)),
    }
}

fn yes_or_no(alloc: Global, holds: bool) -> Result<String, Memory> {
    Ok(String::from_str(alloc, if holds { "yes" } else { "no" })?)
}

fn answer(alloc: Global, question: &str, rest: &str) -> Result<String, Memory> {
    match question {
        "map" => changes(alloc, rest),
        "listed" => listed_places(alloc, rest),
        "stored" => shown_object(alloc, STORED, rest),
        "body" => shown_object(alloc, BODY, rest),
        "whole" => shown_object(alloc, WHOLE, rest),
        _ => yes_or_no(alloc, holds(alloc, question, rest)?),
    }
}

fn main(rt: HostRuntime) -> anyhow::Result<()> {
    let alloc = rt.alloc();
    for line in rt.lines(rt.alloc()) {
        let line = line?;
        let line = line.as_str();
        let (question, rest) = line.split_once(' ').unwrap_or((line, ""));
        let answered = answer(alloc, question, rest)?;
        println!(rt; "{line}: {}", answered.as_str().trim_ascii_end())?;
    }
    Ok(())
}
