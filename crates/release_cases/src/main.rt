//! Cases of what a release makes of a history: a line of standard input asks something of a release of the product's
//! example, with pods in the core group, and its answer is a line of output.
#![tactic(auto)]

mod objects;
mod pages;
mod rows;
mod views;

use basis::Memory;
use example::WIDGETS;
use schemas::Accepted;
use std::alloc::Global;
use std::io;

const PODS: &str = r#"api = [
 {group="", version="v1", resource="pods", since="1.28", event="introduced", kind="Pod", singular="pod", namespaced=true, enabled=true},"#;

/// The answer to a question: the number of a release, what is asked, and of what.
fn answer(alloc: Global, accepted: &Accepted, line: &str) -> Result<String, Memory> {
    let (number, question) = line.split_once(' ').unwrap_or((line, ""));
    let (what, of) = question.split_once(' ').unwrap_or((question, ""));
    let Some(e) = views::release(number) else {
        return Ok(String::from_str(alloc, "no release")?);
    };
    match what {
        "rows" => rows::answer(alloc, accepted, e, of),
        "serving" => pages::served_by(alloc, accepted, e, of),
        _ => match views::view_of(alloc, accepted, e, "")? {
            Ok(view) if what == "convert" => objects::answer(alloc, &view, of),
            Ok(view) => pages::answer(alloc, &view, what, of),
            Err(refused) => Ok(refused),
        },
    }
}

fn main(rt: HostRuntime) -> anyhow::Result<()> {
    let alloc = rt.alloc();
    let text = WIDGETS.replace(alloc, "api = [", PODS)?;
    let Some(accepted) = views::accepted(alloc, text.as_str()) else {
        println!(rt; "not accepted")?;
        return Ok(());
    };
    for line in rt.lines(rt.alloc()) {
        let line = line?;
        let answered = answer(alloc, &accepted, line.as_str())?;
        println!(rt; "{line}: {answered}")?;
    }
    Ok(())
}
