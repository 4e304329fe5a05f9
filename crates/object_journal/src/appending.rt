//! A journal that stands on a disk, and its next record.
ghost use Rattle.std.specs.Prelude.{◌≡◌, ◌<◌, ◌+◌, ℕ, true, List, [], ◌∷◌, ◌++◌, length, max, IsOk, IsErr, OnOk, OnErr};
ghost use Rattle.disk.specs.Calls.{Spares};
ghost use Rattle.disk.specs.Images.{IsStill, end_of_lengths, patched};
ghost use Rattle.object_journal.specs.declared.entry.Entry.{Entry};
ghost use Rattle.object_journal.specs.Payload.{frame_bytes};
ghost use Rattle.object_journal.specs.Frames.{closed_gate};
ghost use Rattle.object_journal.specs.Journal.{MayFollow, IsGated, open_gate as open_byte};
ghost use Rattle.object_journal.specs.Standing.{chosen, StandsOn, IsGatedAt, IsReadyAt, appended, LeavesEntries, LeavesEither, LeavesAppend, Writes};

use crate::framed::Framed;
use crate::put::put_still;
use crate::reader::OPEN_GATE;
use disk::{Disk, Failed};

/// A journal on a disk.
#[derive(Debug, Drop)]
pub struct Journal {
    pub(crate) base: u64,
    pub(crate) revision: u64,
    // The place of the closed gate.
    pub(crate) end: u64,
    pub(crate) ended: bool,
}

// Puts the record behind the closed gate at a place, with a closed gate behind it. That one isn't covered.
fn put_record<D: Disk>(disk: &mut D, end: u64, framed: &Framed) -> Result<(), Failed>
    requires short { end < end_of_lengths }
    requires place { D.tells → end < length (D.held disk.old chosen) }
    requires still { D.tells → IsStill (D.held disk.old) (D.pending disk.old) chosen }
    ensures ready { D.tells → OnOk result ((base : ℕ) (entries : List Entry)
        → IsGatedAt (D.held disk.old chosen) base entries end → IsReadyAt (D.held disk.new chosen) base entries framed.now end) }
    ensures written { D.tells → OnOk result
        (D.held disk.new chosen ≡ patched (D.held disk.old chosen) (end + 1) (frame_bytes framed.now ++ closed_gate ∷ [])) }
    ensures short { OnOk result (end + 1 + length (frame_bytes framed.now) < end_of_lengths) }
    ensures writes { D.tells → Writes D.clock D.may_leave D.held D.pending disk.old disk.new (IsOk result)
        (λ images. (base : ℕ) (entries : List Entry) → IsGatedAt (D.held disk.old chosen) base entries end
        → LeavesEntries (D.pending disk.old) base entries images) }
    ensures spares { Spares D.beside D.faults disk.old disk.new (IsErr result) }
{
    put_still(disk, end + 1, framed.bytes())
}

// Opens the gate at a place, behind which a record stands.
fn open_gate<D: Disk>(disk: &mut D, end: u64) -> Result<(), Failed>
    requires place { D.tells → end < length (D.held disk.old chosen) }
    requires still { D.tells → IsStill (D.held disk.old) (D.pending disk.old) chosen }
    ensures opened { D.tells → OnOk result ((base : ℕ) (entries : List Entry) (new : Entry)
        → IsReadyAt (D.held disk.old chosen) base entries new end → MayFollow base entries new
        → IsGated (D.held disk.new chosen) base (entries ++ new ∷ [])) }
    ensures written { D.tells → OnOk result (D.held disk.new chosen
        ≡ patched (D.held disk.old chosen) end (open_byte ∷ [])) }
    ensures writes { D.tells → Writes D.clock D.may_leave D.held D.pending disk.old disk.new (IsOk result)
        (λ images. (base : ℕ) (entries : List Entry) (new : Entry) → IsReadyAt (D.held disk.old chosen) base entries new end
        → MayFollow base entries new → LeavesEither (D.pending disk.old) base entries new images) }
    ensures spares { Spares D.beside D.faults disk.old disk.new (IsErr result) }
{
    put_still(disk, end, &[OPEN_GATE])
}

impl Journal {
    /// Puts the framed entry behind the others. The journal ends where the disk fails.
    pub fn append<D: Disk>(&mut self, framed: &Framed, disk: &mut D) -> Result<(), Failed>
        requires { (entries : List Entry) × StandsOn D.tells (D.held disk.old) (D.pending disk.old) self.old entries
            × MayFollow self.old.base entries framed.now }
        ensures stands { OnOk result ((entries : List Entry)
            → StandsOn D.tells (D.held disk.old) (D.pending disk.old) self.old entries
            → MayFollow self.old.base entries framed.now
            → StandsOn D.tells (D.held disk.new) (D.pending disk.new) self.new (entries ++ framed.now ∷ [])) }
        ensures ok { OnOk result (self.new ≡ record self.old {
          revision = max self.old.revision framed.now.revision;
          end = self.old.end + 1 + length (frame_bytes framed.now);
        }) }
        ensures failed { OnErr result (self.new ≡ record self.old { ended = true }) }
        ensures written { D.tells → OnOk result (D.held disk.new chosen
            ≡ appended (D.held disk.old chosen) self.old.end framed.now) }
        ensures writes { D.tells → Writes D.clock D.may_leave D.held D.pending disk.old disk.new (IsOk result)
            (LeavesAppend D.tells (D.held disk.old) (D.pending disk.old) self.old framed.now) }
        ensures spares { Spares D.beside D.faults disk.old disk.new (IsErr result) }
    {
        self.ended = true;
        put_record(disk, self.end, framed)?;
        open_gate(disk, self.end)?;
        self.revision = self.revision.max(framed.revision());
        self.end += framed.bytes().len() as u64;
        self.ended = false;
        Ok(())
    }

    /// The greatest of the base and the revisions of its entries.
    pub fn revision(&self) -> u64
        ensures { result ≡ self.now.revision }
    {
        self.revision
    }

    /// Whether a call on it failed. No other may follow then.
    pub fn has_ended(&self) -> bool
        ensures { result ≡ self.now.ended }
    {
        self.ended
    }
}
