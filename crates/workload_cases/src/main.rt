//! Cases of scripts that are drawn: a line of standard input has the word `script` or `sum`, the number of a release, a seed, a
//! size and a runtime configuration. It is answered by the script for what the release serves, or by a checksum of it.
#![tactic(auto)]

mod histories;
mod texts;

use basis::Memory;
use schemas::Accepted;
use scripts::Script;
use std::alloc::Global;
use workload::generate;

/// A word, and what stands behind it.
fn cut(line: &str) -> (&str, &str) {
    line.split_once(' ').unwrap_or((line, ""))
}

/// The script of the release, the seed, the size and the configuration that the words name.
fn drawn(alloc: Global, accepted: &Accepted, words: &str) -> Result<Option<Script>, Memory> {
    let (number, rest) = cut(words);
    let (seed, rest) = cut(rest);
    let (size, config) = cut(rest);
    let Some(e) = histories::release(number) else {
        return Ok(None);
    };
    let Some(view) = histories::view_of(alloc, accepted, e, config) else {
        return Ok(None);
    };
    let (Ok(seed), Ok(size)) = (seed.parse::<u64>(), size.parse::<u32>()) else {
        return Ok(None);
    };
    if 10_000 < size {
        return Ok(None);
    }
    Ok(Some(generate(alloc, &view, seed, size)?))
}

fn answer(alloc: Global, accepted: &Accepted, line: &str) -> Result<String, Memory> {
    let (word, rest) = cut(line);
    match drawn(alloc, accepted, rest)? {
        Some(script) if word == "script" => texts::script_text(alloc, &script),
        Some(script) => texts::script_sum(alloc, &script),
        None => Ok(String::from_str(alloc, "no script\n")?),
    }
}

fn main(rt: HostRuntime) -> anyhow::Result<()> {
    let alloc = rt.alloc();
    let Some(accepted) = histories::accepted(alloc)? else {
        println!(rt; "not accepted")?;
        return Ok(());
    };
    for line in rt.lines(rt.alloc()) {
        let line = line?;
        let answered = answer(alloc, &accepted, line.as_str())?;
        println!(rt; "{line}:")?;
        print!(rt; "{answered}")?;
    }
    Ok(())
}
