//! Reading the records of a store.
ghost use Rattle.std.specs.Prelude.{◌≡◌, All, IfOk, IfErr, OnOk};
ghost use Rattle.object_store.specs.Records.{AreInKeyOrder};
ghost use Rattle.storage_version.specs.Standing.{AreReadable, StandsFor};
ghost use Rattle.stored_state.specs.Reading.{IsReadByBoth, IsStartFault};
ghost use Rattle.stored_state.specs.Steps.{AreObjectsOf};

use crate::fault::StartFault;
use crate::record::add;
use object_state::{State, Stored};
use object_store::{Item, Store};
use release_view::View;
use std::alloc::Global;

// The objects that the records of live kinds are read as, in key order, if both releases read each record.
fn objects_of(
    alloc: Global,
    view: &View,
    back: &View,
    items: &[Item],
) -> Result<Vec<Stored>, StartFault>
    requires { AreInKeyOrder items.now }
    ensures ok { IfOk result (λ v. AreObjectsOf view.now.versions items.now v.items) }
    ensures both { OnOk result (All (IsReadByBoth back.now view.now) items.now) }
    ensures err { IfErr result (IsStartFault back.now view.now items.now) }
{
    let mut objects = Vec::new(alloc);
    for item in items {
        match add(alloc, view, back, item, &mut objects) {
            Ok(()) => {}
            Err(fault) => return Err(fault),
        }
    }
    Ok(objects)
}

/// The state that the records of the store stand for, as the view reads them, if both releases read those of the kinds that
/// are live there. Records of kinds that aren't live in the view are counted, and no objects.
pub fn read_state(
    alloc: Global,
    view: &View,
    back: &View,
    store: &Store,
) -> Result<State, StartFault>
    ensures stands { IfOk result (λ s. StandsFor store.now.items store.now.journal.revision
        view.now.versions s.state) }
    ensures readable { OnOk result (AreReadable back.now.versions store.now.items) }
    ensures refused { IfErr result (IsStartFault back.now view.now store.now.items) }
{
    let items = store.items();
    let objects = objects_of(alloc, view, back, items)?;
    let records = items.len() as u64;
    Ok(State::made_of(objects, store.revision(), records))
}
