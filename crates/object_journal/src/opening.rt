//! Opening the journal on a disk.
ghost use Rattle.std.specs.Prelude.{◌≡◌, ◌≤◌, ◌<◌, ℕ, List, [], ◌∷◌, ◌++◌, length, IsOk, IsErr, IfOk, OnOk, IsErrOf};
ghost use Rattle.disk.specs.Calls.{Spares};
ghost use Rattle.disk.specs.Images.{IsStill, end_of_lengths};
ghost use Rattle.disk.specs.Moments.{Moments, Unchanged};
ghost use Rattle.disk.specs.declared.file.File.{File as FileS};
ghost use Rattle.object_journal.specs.declared.entry.Entry.{Entry};
ghost use Rattle.object_journal.specs.declared.opening.OpenFault.TheVariants.{NotAStore};
ghost use Rattle.object_journal.specs.Frames.{closed_gate};
ghost use Rattle.object_journal.specs.Journal.{IsJournal, IsRefusal, header_of};
ghost use Rattle.object_journal.specs.Standing.{chosen, StandsOn, OthersStay, IsHeaded, IsMended, LeavesNone, LeavesMeaning, Opens, Writes};

use crate::appending::Journal;
use crate::entry::Entries;
use crate::framed::CLOSED_GATE;
use crate::gather::Gather;
use crate::put::{CHOSEN, put_still};
use crate::reader::{ReadFault, read_journal};
use disk::{AtFault, Disk, Failed, File};
use std::alloc::Global;
use std::error::Error;
use std::fmt;

/// Why no journal is opened.
#[derive(Clone, Copy, Debug, PartialEq, Eq)]
pub enum OpenFault {
    /// The bytes of the file break the grammar at this place.
    NotAStore {
        /// The file.
        file: File,
        /// The place.
        at: u64,
    },
    /// The disk failed.
    Disk,
    /// Memory ran out.
    Memory,
}

impl fmt::Display for OpenFault {
    fn fmt<W: fmt::Write>(&self, f: &mut fmt::Formatter<W>) -> fmt::Result {
        match self {
            OpenFault::NotAStore { .. } => f.write_str("not a store"),
            OpenFault::Disk => AtFault::Failed.fmt(f),
            OpenFault::Memory => AtFault::Memory.fmt(f),
        }
    }
}

impl Error for OpenFault {}

// Puts the header of a fresh file.
fn put_header<D: Disk>(disk: &mut D) -> Result<(), Failed>
    requires fresh { D.tells → length (D.held disk.old chosen) ≤ 16 }
    requires still { D.tells → IsStill (D.held disk.old) (D.pending disk.old) chosen }
    ensures written { D.tells → OnOk result (D.held disk.new chosen ≡ header_of 0) }
    ensures writes { D.tells → Writes D.clock D.may_leave D.held D.pending disk.old disk.new (IsOk result)
        (LeavesNone (D.pending disk.old) 0) }
    ensures spares { Spares D.beside D.faults disk.old disk.new (IsErr result) }
{
    put_still(disk, 0, b"KEMUJNL1\0\0\0\0\0\0\0\0")
}

// Puts the first gate behind a header, over the one that may be there.
fn put_gate<D: Disk>(disk: &mut D) -> Result<(), Failed>
    requires place { D.tells → 16 ≤ length (D.held disk.old chosen) }
    requires still { D.tells → IsStill (D.held disk.old) (D.pending disk.old) chosen }
    ensures written { D.tells → OnOk result ((base : ℕ) → IsHeaded (D.held disk.old chosen) base
        → D.held disk.new chosen ≡ header_of base ++ closed_gate ∷ []) }
    ensures writes { D.tells → Writes D.clock D.may_leave D.held D.pending disk.old disk.new (IsOk result)
        (λ images. (base : ℕ) → IsHeaded (D.held disk.old chosen) base → LeavesNone (D.pending disk.old) base images) }
    ensures spares { Spares D.beside D.faults disk.old disk.new (IsErr result) }
{
    put_still(disk, 16, &[CLOSED_GATE])
}

// Makes the header and the first gate of a fresh file, or closes the gate behind a header alone.
fn mend<D: Disk>(disk: &mut D, len: usize) -> Result<(), Failed>
    requires len { D.tells → len ≡ length (D.held disk.old chosen) }
    requires still { D.tells → IsStill (D.held disk.old) (D.pending disk.old) chosen }
    ensures mended { D.tells → OnOk result ((base : ℕ) (entries : List Entry)
        → IsJournal (D.held disk.old chosen) base entries → IsMended (D.held disk.old chosen) base (D.held disk.new chosen)) }
    ensures writes { D.tells → Writes D.clock D.may_leave D.held D.pending disk.old disk.new (IsOk result)
        (λ images. (base : ℕ) (entries : List Entry) → IsJournal (D.held disk.old chosen) base entries
        → LeavesMeaning (D.held disk.old) (D.pending disk.old) images) }
    ensures spares { Spares D.beside D.faults disk.old disk.new (IsErr result) }
{
    if len > 17 {
        return Ok(());
    }
    if len == 17 {
        return put_gate(disk);
    }
    put_header(disk)?;
    put_gate(disk)
}

// The bytes of the file.
fn read_whole<D: Disk>(alloc: Global, disk: &mut D) -> Result<Vec<u8>, OpenFault>
    ensures bytes { D.tells → IfOk result (λ v. v.items ≡ D.held disk.old chosen) }
    ensures short { IfOk result (λ v. length v.items < end_of_lengths) }
    ensures same { D.tells → Unchanged D.clock D.may_leave D.held D.pending disk.old disk.new }
    ensures clock { D.clock disk.new ≡ D.clock disk.old }
    ensures spares { Spares D.beside D.faults disk.old disk.new (IsErrOf result OpenFault.Disk) }
    ensures sound { (file : FileS) (at : ℕ) → ¬ IsErrOf result (NotAStore file at) }
{
    let Ok(len) = disk.len(CHOSEN) else {
        return Err(OpenFault::Disk);
    };
    let mut bytes = Vec::new(alloc);
    let Ok(()) = bytes.resize(len as usize, 0) else {
        return Err(OpenFault::Memory);
    };
    match disk.read_at(CHOSEN, 0, bytes.as_mut_slice()) {
        Ok(()) => Ok(bytes),
        Err(Failed) => Err(OpenFault::Disk),
    }
}

// Opens a file that is still.
fn open_still<G: Gather, D: Disk>(alloc: Global, disk: &mut D) -> Result<(Journal, G), OpenFault>
    requires { D.tells → IsStill (D.held disk.old) (D.pending disk.old) chosen }
    ensures opened { IfOk result (λ r. (entries : List Entry) × G.is_of r.1 entries
        × StandsOn D.tells (D.held disk.new) (D.pending disk.new) r.0 entries
        × (D.tells → IsJournal (D.held disk.old chosen) r.0.base entries)) }
    ensures mended { D.tells → IfOk result (λ r. IsMended (D.held disk.old chosen) r.0.base (D.held disk.new chosen)) }
    ensures refused { D.tells → (file : FileS) (at : ℕ) → IsErrOf result (NotAStore file at)
        → (file ≡ chosen) × IsRefusal (D.held disk.old chosen) at × (D.held disk.new ≡ D.held disk.old) }
    ensures memory { D.tells → IsErrOf result OpenFault.Memory → D.held disk.new ≡ D.held disk.old }
    ensures synced { D.tells → ¬ IsErrOf result OpenFault.Disk
        → IsStill (D.held disk.new) (D.pending disk.new) chosen }
    ensures time { D.tells → Moments D.clock D.may_leave disk.old disk.new
        (λ _. LeavesMeaning (D.held disk.old) (D.pending disk.old)) }
    ensures others { D.tells → OthersStay (D.held disk.old) (D.held disk.new) (D.pending disk.old) (D.pending disk.new) }
    ensures spares { Spares D.beside D.faults disk.old disk.new (IsErrOf result OpenFault.Disk) }
{
    let bytes = match read_whole(alloc, disk) {
        Ok(bytes) => bytes,
        Err(fault) => return Err(fault),
    };
    let (reading, gathered, end) = match read_journal(alloc, bytes.as_slice()) {
        Ok(read) => read,
        Err(ReadFault::BrokenAt(at)) => return Err(OpenFault::NotAStore { file: CHOSEN, at }),
        Err(ReadFault::Memory) => return Err(OpenFault::Memory),
    };
    let Ok(()) = mend(disk, bytes.len()) else {
        return Err(OpenFault::Disk);
    };
    let journal = Journal {
        base: reading.base,
        revision: reading.revision,
        end: end as u64,
        ended: false,
    };
    Ok((journal, gathered))
}

/// Opens the journal of the disk, with what its entries make. A fresh file gets its header and first gate, and the gate
/// behind a header alone is closed; nothing else is written.
pub fn open_journal_into<G: Gather, D: Disk>(
    alloc: Global,
    disk: &mut D,
) -> Result<(Journal, G), OpenFault>
    ensures opened { IfOk result (λ r. (entries : List Entry) × G.is_of r.1 entries
        × StandsOn D.tells (D.held disk.new) (D.pending disk.new) r.0 entries
        × (D.tells → IsJournal (D.held disk.old chosen) r.0.base entries)) }
    ensures mended { D.tells → IfOk result (λ r. IsMended (D.held disk.old chosen) r.0.base (D.held disk.new chosen)) }
    ensures opens { D.tells → Opens D.clock D.may_leave D.held D.pending disk.old disk.new result }
    ensures memory { D.tells → IsErrOf result OpenFault.Memory → D.held disk.new ≡ D.held disk.old }
    ensures spares { Spares D.beside D.faults disk.old disk.new (IsErrOf result OpenFault.Disk) }
{
    match disk.sync(CHOSEN) {
        Ok(()) => open_still(alloc, disk),
        Err(Failed) => Err(OpenFault::Disk),
    }
}

/// Opens the journal of the disk, with its entries, in order. A fresh file gets its header and first gate, and the gate
/// behind a header alone is closed; nothing else is written.
pub fn open_journal<D: Disk>(alloc: Global, disk: &mut D) -> Result<(Journal, Entries), OpenFault>
    ensures stands { IfOk result (λ r. StandsOn D.tells (D.held disk.new) (D.pending disk.new) r.0 r.1) }
    ensures means { D.tells → IfOk result (λ r. IsJournal (D.held disk.old chosen) r.0.base r.1) }
    ensures mended { D.tells → IfOk result (λ r. IsMended (D.held disk.old chosen) r.0.base (D.held disk.new chosen)) }
    ensures opens { D.tells → Opens D.clock D.may_leave D.held D.pending disk.old disk.new result }
    ensures memory { D.tells → IsErrOf result OpenFault.Memory → D.held disk.new ≡ D.held disk.old }
    ensures spares { Spares D.beside D.faults disk.old disk.new (IsErrOf result OpenFault.Disk) }
{
    open_journal_into(alloc, disk)
}
