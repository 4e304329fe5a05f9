//! What follows from what the type of a service keeps, each law as the contract of a function that does nothing.
ghost use Rattle.object_store.specs.Records.{AreInKeyOrder};
ghost use Rattle.storage_version.specs.Kept.{AreKept};
ghost use Rattle.stored_state.specs.Laws.{HoldsWithin};
ghost use Rattle.api_requests.specs.Finishing.{RestoresNow};
ghost use Rattle.api_requests.specs.Serving.{IsServing};

use crate::service::Service;
use disk::Disk;
use storage_version::records_are_kept;
use stored_state::store_holds_within;

/// What the type of a service keeps; and that before any change its records are what is kept of them.
pub fn service_is_kept(service: &Service)
    ensures serves { IsServing service.now }
    ensures ordered { AreInKeyOrder service.now.store.items }
    ensures within { HoldsWithin service.now.store }
    ensures kept { AreKept service.now.back.versions service.now.machine.view.versions
        service.now.store.items service.now.state
        service.now.store.items service.now.store.journal.revision }
{
    let _items = service.store.items();
    store_holds_within(&service.store);
    records_are_kept(&service.back, &service.machine.view);
}

/// Where the store's records stand on a disk, what a stop leaves at present restores the present state.
pub fn standing_service_restores<D: Disk>(service: &Service, disk: &D)
    ensures { RestoresNow D.tells (D.held disk.now) (D.pending disk.now) service.now }
{
    service_is_kept(service);
    let _disk = disk;
}
