//! One record, as two releases read it.
ghost use Rattle.std.specs.Prelude.{◌≡◌, IfOk, OnOk, IfErr};
ghost use Rattle.stored_state.specs.Reading.{IsReadByBoth};
ghost use Rattle.stored_state.specs.Steps.{IsFieldsOf, IsFaultIn, IsFaultAt, IsStoredOf, AreWith};

use crate::fault::StartFault;
use fields::Fields;
use object_state::{Object, Stored};
use object_store::Item;
use release_view::View;
use std::alloc::Global;
use storage_version::{DecodeFault, decode_body};

// The fields of the record as the view's release reads it. None where its kind isn't live there.
fn fields_in(alloc: Global, view: &View, item: &Item) -> Result<Option<Fields>, StartFault>
    ensures ok { IfOk result (IsFieldsOf view.now.versions item.now) }
    ensures err { IfErr result (IsFaultIn view.now item.now) }
{
    let group = item.key.group.bytes();
    let resource = item.key.resource.bytes();
    match decode_body(alloc, view, group, resource, item.body.bytes()) {
        Ok(fields) => Ok(fields),
        Err(DecodeFault::Undecodable { version }) => {
            let key = item.key.duplicate(alloc)?;
            let minor = view.minor();
            Err(StartFault::Undecodable {
                key,
                version,
                minor,
            })
        }
        Err(DecodeFault::Memory) => Err(StartFault::Memory),
    }
}

// The fields of the record as the view's release reads it, if both releases do.
fn fields_of(
    alloc: Global,
    view: &View,
    back: &View,
    item: &Item,
) -> Result<Option<Fields>, StartFault>
    ensures ok { IfOk result (IsFieldsOf view.now.versions item.now) }
    ensures both { OnOk result (IsReadByBoth back.now view.now item.now) }
    ensures err { IfErr result (IsFaultAt back.now view.now item.now) }
{
    let later = fields_in(alloc, view, item)?;
    let _earlier = fields_in(alloc, back, item)?;
    Ok(later)
}

// The object of the record, if both releases read that. None where its kind isn't live in the view.
fn stored_of(
    alloc: Global,
    view: &View,
    back: &View,
    item: &Item,
) -> Result<Option<Stored>, StartFault>
    ensures ok { IfOk result (IsStoredOf view.now.versions item.now) }
    ensures both { OnOk result (IsReadByBoth back.now view.now item.now) }
    ensures err { IfErr result (IsFaultAt back.now view.now item.now) }
{
    let Some(fields) = fields_of(alloc, view, back, item)? else {
        return Ok(None);
    };
    let key = item.key.duplicate(alloc)?;
    let object = Object {
        created: item.created,
        revision: item.revision,
        fields,
    };
    Ok(Some(Stored { key, object }))
}

/// Adds the object of the record, if both releases read that and its kind is live in the view.
pub(crate) fn add(
    alloc: Global,
    view: &View,
    back: &View,
    item: &Item,
    objects: &mut Vec<Stored>,
) -> Result<(), StartFault>
    ensures with { OnOk result
        (AreWith view.now.versions item.now objects.old.items objects.new.items) }
    ensures both { OnOk result (IsReadByBoth back.now view.now item.now) }
    ensures err { IfErr result (IsFaultAt back.now view.now item.now) }
{
    let Some(stored) = stored_of(alloc, view, back, item)? else {
        return Ok(());
    };
    match objects.push(stored) {
        Ok(()) => Ok(()),
        Err(_) => Err(StartFault::Memory),
    }
}
