//! Scripts that are drawn.
ghost use Rattle.std.specs.Prelude.{◌≡◌, ◌≤◌, ◌++◌, ℕ, All, IfOk, OnOk, length};
ghost use Rattle.workload.specs.Groups.{closes, opens};
ghost use Rattle.workload.specs.Parts.{AreOpen};
ghost use Rattle.workload.specs.Workload.{AreDrawn, IsWorkload};

use crate::draws::Draws;
use crate::groups::{CONNECTIONS, push_groups};
use crate::request::{Request, drawn_request};
use basis::Memory;
use release_view::View;
use scripts::{Script, ScriptEvent};
use std::alloc::Global;

// So many requests, drawn one after another.
fn drawn_requests(alloc: Global, view: &View, seed: u64, size: u32) -> Result<Vec<Request>, Memory>
    ensures drawn { IfOk result (λ v. (z : ℕ) × AreDrawn view.now seed v.items z) }
    ensures count { IfOk result (λ v. length v.items ≡ size) }
    ensures within { IfOk result (λ v. All (λ r. r.cut ≤ length r.bytes) v.items) }
{
    let mut draws = Draws::new(seed);
    let mut requests = Vec::new(alloc);
    for _i in 0..size {
        let request = drawn_request(alloc, view, &mut draws)?;
        requests.push(request)?;
    }
    Ok(requests)
}

// The script that opens four connections.
fn opened(alloc: Global) -> Result<Script, Memory>
    ensures events { IfOk result (λ s. s ≡ opens) }
    ensures ready { IfOk result AreOpen }
{
    let mut script = Script::new();
    for _c in 0..CONNECTIONS {
        script.push(alloc, ScriptEvent::Open)?;
    }
    Ok(script)
}

// Closes the four connections.
fn close(alloc: Global, script: &mut Script) -> Result<(), Memory>
    requires { AreOpen script.old }
    ensures { OnOk result (script.new ≡ script.old ++ closes) }
{
    for c in 0..CONNECTIONS {
        script.push(alloc, ScriptEvent::Close(c as u32))?;
    }
    Ok(())
}

/// The script of `size` requests that `seed` makes for what the release serves: they create, replace, read and remove
/// objects, and come of four connections, each request in one or two parts.
pub fn generate(alloc: Global, view: &View, seed: u64, size: u32) -> Result<Script, Memory>
    requires { size ≤ 10000 }
    ensures { IfOk result (IsWorkload view.now seed size) }
{
    let requests = drawn_requests(alloc, view, seed, size)?;
    let mut script = opened(alloc)?;
    push_groups(alloc, &mut script, requests.as_slice())?;
    close(alloc, &mut script)?;
    Ok(script)
}
