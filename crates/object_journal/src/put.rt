//! Writing to the file of the journal, so that it is still again.
ghost use Rattle.std.specs.Prelude.{◌≡◌, ◌≤◌, ◌<◌, ◌+◌, length, IsOk, IsErr, OnOk};
ghost use Rattle.disk.specs.Calls.{Spares};
ghost use Rattle.disk.specs.Images.{IsStill, end_of_lengths, patched};
ghost use Rattle.object_journal.specs.Standing.{chosen, LeavesWrite, Writes};

use disk::{Disk, Failed, File};

/// The file of the journal.
pub(crate) const CHOSEN: File = File::Left;

/// Writes the bytes at a place of the file, which is still, and makes it still again.
pub(crate) fn put_still<D: Disk>(disk: &mut D, at: u64, bytes: &[u8]) -> Result<(), Failed>
    requires place { D.tells → at ≤ length (D.held disk.old chosen) }
    requires still { D.tells → IsStill (D.held disk.old) (D.pending disk.old) chosen }
    ensures written { D.tells → OnOk result (D.held disk.new chosen
        ≡ patched (D.held disk.old chosen) at bytes.now) }
    ensures short { OnOk result (at + length bytes.now < end_of_lengths) }
    ensures writes { D.tells → Writes D.clock D.may_leave D.held D.pending disk.old disk.new (IsOk result)
        (LeavesWrite (D.held disk.old) (D.pending disk.old) at (length bytes.now)) }
    ensures spares { Spares D.beside D.faults disk.old disk.new (IsErr result) }
{
    disk.write_at(CHOSEN, at, bytes)?;
    disk.sync(CHOSEN)
}
