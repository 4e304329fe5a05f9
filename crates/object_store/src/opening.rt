//! Opening the store on a disk.
ghost use Rattle.std.specs.Prelude.{◌≡◌, List, IfOk, IsErrOf};
ghost use Rattle.disk.specs.Calls.{Spares};
ghost use Rattle.object_journal.specs.declared.entry.Entry.{Entry};
ghost use Rattle.object_journal.specs.Standing.{chosen, IsMended};
ghost use Rattle.object_store.specs.Records.{RecoversTo};
ghost use Rattle.object_store.specs.Stores.{HasEntries, OpensStore};

use crate::recovered::Recovered;
use crate::store::Store;
use disk::Disk;
use object_journal::{OpenFault, open_journal_into};
use std::alloc::Global;

/// Opens the store of the disk: the records and the revision that its journal leaves. `NotAStore` tells where the journal
/// breaks the grammar. A fresh file becomes a journal of no records.
pub fn open_store<D: Disk>(alloc: Global, disk: &mut D) -> Result<Store, OpenFault>
    ensures stands { IfOk result (λ s. (entries : List Entry)
        × HasEntries D.tells (D.held disk.new) (D.pending disk.new) s entries) }
    ensures recovered { D.tells → IfOk result (λ s. RecoversTo (D.held disk.old chosen) s.items s.journal.revision) }
    ensures spare { IfOk result (λ s. s.spare ≡ 0) }
    ensures mended { D.tells → IfOk result (λ s. IsMended (D.held disk.old chosen) s.journal.base (D.held disk.new chosen)) }
    ensures opens { D.tells → OpensStore D.clock D.may_leave D.held D.pending disk.old disk.new result }
    ensures spares { Spares D.beside D.faults disk.old disk.new (IsErrOf result OpenFault.Disk) }
{
    let (journal, recovered) = match open_journal_into::<Recovered, D>(alloc, disk) {
        Ok(opened) => opened,
        Err(fault) => return Err(fault),
    };
    match recovered.listed(alloc) {
        Ok(items) => Ok(Store {
            items,
            journal,
            spare: 0,
        }),
        Err(_) => Err(OpenFault::Memory),
    }
}
