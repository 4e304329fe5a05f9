//! Cases of requests: a line of standard input is a request to a server over a disk in memory, asks for a new one, starts it
//! again over what it left, fills it, or asks what its disk holds; and what is answered is a line of output. The servers are
//! of releases of the product's example, with resources in the core group.
#![tactic(auto)]

mod filling;
mod replies;
mod requests;
mod servers;
mod slot;

use basis::Memory;
use schemas::Accepted;
use slot::Slot;
use std::alloc::Global;
use std::io;

fn replied(alloc: Global, slot: &mut Slot, line: &str) -> Result<String, Memory> {
    let request = requests::request(alloc, line)?;
    let reply = slot::replied(alloc, slot, &request)?;
    replies::text(alloc, &reply)
}

fn answer(
    alloc: Global,
    accepted: &Accepted,
    slot: &mut Slot,
    line: &str,
) -> Result<String, Memory> {
    let (word, rest) = line.split_once(' ').unwrap_or((line, ""));
    match word {
        "new" => slot::anew(alloc, accepted, slot, rest),
        "again" => slot::again(alloc, accepted, slot, rest),
        "fill" => filling::answer(alloc, slot, rest),
        "records" => slot::records(alloc, slot),
        "length" => slot::length(alloc, slot),
        _ => replied(alloc, slot, line),
    }
}

fn main(rt: HostRuntime) -> anyhow::Result<()> {
    let alloc = rt.alloc();
    let Some(accepted) = servers::accepted(alloc)? else {
        println!(rt; "not accepted")?;
        return Ok(());
    };
    let mut slot = Slot { server: None };
    for line in rt.lines(rt.alloc()) {
        let line = line?;
        let answered = answer(alloc, &accepted, &mut slot, line.as_str())?;
        println!(rt; "{line}: {answered}")?;
    }
    Ok(())
}
