//! Requests in groups of four, one of each connection.
ghost use Rattle.std.specs.Prelude.{◌≡◌, ◌≤◌, ◌++◌, All, OnOk, length};
ghost use Rattle.std.specs.List.{flat_map};
ghost use Rattle.workload.specs.Groups.{backs, fronts, group_events};
ghost use Rattle.workload.specs.Parts.{AreOpen, slices};

use crate::parts::{push_pieces, slice_at};
use crate::request::Request;
use basis::Memory;
use scripts::Script;
use std::alloc::Global;

/// How many connections there are, each with one request of a group.
pub(crate) const CONNECTIONS: usize = 4;

// Appends what comes before the cuts.
fn push_fronts(alloc: Global, script: &mut Script, group: &[Request]) -> Result<(), Memory>
    requires ready { AreOpen script.old }
    requires few { length group.now ≤ 4 }
    requires within { All (λ r. r.cut ≤ length r.bytes) group.now }
    ensures ready { AreOpen script.new }
    ensures pieces { OnOk result (script.new ≡ script.old ++ fronts 0 group.now) }
{
    for (c, request) in group.iter().enumerate() {
        push_pieces(alloc, script, c as u32, request.front())?;
    }
    Ok(())
}

// Appends what comes behind the cuts.
fn push_backs(alloc: Global, script: &mut Script, group: &[Request]) -> Result<(), Memory>
    requires ready { AreOpen script.old }
    requires few { length group.now ≤ 4 }
    requires within { All (λ r. r.cut ≤ length r.bytes) group.now }
    ensures ready { AreOpen script.new }
    ensures pieces { OnOk result (script.new ≡ script.old ++ backs 0 group.now) }
{
    for (c, request) in group.iter().enumerate() {
        push_pieces(alloc, script, c as u32, request.back())?;
    }
    Ok(())
}

fn push_group(alloc: Global, script: &mut Script, group: &[Request]) -> Result<(), Memory>
    requires ready { AreOpen script.old }
    requires few { length group.now ≤ 4 }
    requires within { All (λ r. r.cut ≤ length r.bytes) group.now }
    ensures ready { AreOpen script.new }
    ensures pieces { OnOk result (script.new ≡ script.old ++ group_events group.now) }
{
    push_fronts(alloc, script, group)?;
    push_backs(alloc, script, group)
}

/// Appends the requests, in groups of four.
pub(crate) fn push_groups(
    alloc: Global,
    script: &mut Script,
    requests: &[Request],
) -> Result<(), Memory>
    requires ready { AreOpen script.old }
    requires within { All (λ r. r.cut ≤ length r.bytes) requests.now }
    ensures ready { AreOpen script.new }
    ensures pieces { OnOk result
        (script.new ≡ script.old ++ flat_map group_events (slices 4 requests.now)) }
{
    for k in 0..requests.len().div_ceil(CONNECTIONS) {
        push_group(alloc, script, slice_at(requests, CONNECTIONS, k))?;
    }
    Ok(())
}
