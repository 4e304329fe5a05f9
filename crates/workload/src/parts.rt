//! Slices of lists, and bytes in pieces of a script.
ghost use Rattle.std.specs.Prelude.{◌≡◌, ◌<◌, ◌≤◌, ◌*◌, ◌++◌, OnOk, length};
ghost use Rattle.workload.specs.Parts.{AreOpen, pieces, slice_at};

use basis::Memory;
use minor_version::Blob;
use scripts::{Script, ScriptEvent};
use std::alloc::Global;

/// How many bytes a piece of a script has at most.
const LONGEST_PIECE: usize = 4_096;

/// The slice of `size` elements behind `k` others; the last one may be shorter.
pub(crate) fn slice_at<T>(items: &[T], size: usize, k: usize) -> &[T]
    requires { size * k ≤ length items.now }
    ensures { result.now ≡ slice_at size k items.now }
{
    let rest = items.split_at(size * k).1;
    if size < rest.len() {
        rest.split_at(size).0
    } else {
        rest
    }
}

/// Appends the bytes, in pieces of connection `c`.
pub(crate) fn push_pieces(
    alloc: Global,
    script: &mut Script,
    c: u32,
    bytes: &[u8],
) -> Result<(), Memory>
    requires ready { AreOpen script.old }
    requires known { c < 4 }
    ensures ready { AreOpen script.new }
    ensures pieces { OnOk result (script.new ≡ script.old ++ pieces c bytes.now) }
{
    for k in 0..bytes.len().div_ceil(LONGEST_PIECE) {
        let piece = Blob::copy(alloc, slice_at(bytes, LONGEST_PIECE, k))?;
        script.push(alloc, ScriptEvent::Piece(c, piece))?;
    }
    Ok(())
}
