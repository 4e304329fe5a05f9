//! A server that starts from a store, and serves the connections of its front.
ghost use Rattle.std.specs.Prelude.{◌≡◌, ◌≢◌, ◌<◌, [], List, false, IfOk, IfErr, OnOk, IsErrOf};
ghost use Rattle.api_requests.specs.Finishing.{StandsOnDisk};
ghost use Rattle.api_requests.specs.Serving.{IsServing};
ghost use Rattle.disk.specs.Moments.{Moments};
ghost use Rattle.object_journal.specs.Standing.{chosen};
ghost use Rattle.object_journal.specs.declared.entry.Entry.{Entry};
ghost use Rattle.object_store.specs.Records.{RecoversTo};
ghost use Rattle.object_store.specs.Stores.{HasEntries, KeepsRecords};
ghost use Rattle.release_view.specs.Later.{AreOfOneHistory};
ghost use Rattle.schemas.specs.Dated.{Dated};
ghost use Rattle.session_ends.specs.Drawn.{HasDrawn};
ghost use Rattle.session_step.specs.Taken.{CountsFailure, server_of};
ghost use Rattle.store_session.specs.Ends.{IsStoreEnd};
ghost use Rattle.store_session.specs.Opened.{HoldSame, IsOpening};
ghost use Rattle.store_session.specs.Steps.{IsOpeningEnd, IsStartEnd, MayFailOpening, ServesAs};
ghost use Rattle.world.specs.Fronts.{IsAboveMark, IsAtStart};

use crate::fault::StoreFault;
use api_requests::{Service, StartFault, service_is_kept, start};
use minor_version::Minor;
use object_store::{OpenFault, Store, open_store};
use release_view::View;
use session::session;
use session_ends::{Served, SessionFault};
use std::alloc::Global;
use world::Front;

/// The store of the front's disk.
fn opened<W: Front>(alloc: Global, world: &mut W) -> Result<Store, StoreFault>
    ensures stands { IfOk result (λ s. (entries : List Entry)
        × HasEntries W.tells (W.held world.new) (W.pending world.new) s entries) }
    ensures recovered { W.tells → IfOk result (λ s. RecoversTo (W.held world.old chosen) s.items s.journal.revision) }
    ensures moments { W.tells → OnOk result (Moments W.clock W.may_leave world.old world.new
        (λ _ images. KeepsRecords (W.held world.old chosen) (images chosen))) }
    ensures begun { W.tells → OnOk result (W.clock world.old < W.clock world.new) }
    ensures content { W.tells → IfOk result (λ s. s.items ≢ [] → HoldSame (W.held world.old) (W.held world.new)) }
    ensures opening { W.tells → IsOpening W.clock W.may_leave W.held W.pending W.beside world.old world.new }
    ensures fault { IfErr result MayFailOpening }
    ensures ends { W.tells → IfErr result (IsOpeningEnd (W.held world.old) (W.held world.new)) }
    ensures same { W.beside world.new ≡ W.beside world.old }
    ensures counts { CountsFailure (W.faults world.old) (W.faults world.new) (IsErrOf result StoreFault.Disk) }
{
    match open_store(alloc, world) {
        Ok(store) => Ok(store),
        Err(OpenFault::NotAStore { file, at }) => Err(StoreFault::NotAStore { file, at }),
        Err(OpenFault::Disk) => Err(StoreFault::Disk),
        Err(OpenFault::Memory) => Err(StoreFault::Memory),
    }
}

/// A server from the records of the store.
fn started(
    alloc: Global,
    view: View,
    back: View,
    release: Minor,
    store: Store,
) -> Result<Service, StoreFault>
    requires one { (history : Dated) × AreOfOneHistory history back view }
    requires going { store.journal.ended ≡ false }
    ensures machine { IfOk result (λ s. s.machine
        ≡ record { view = view; release = release; back = back.minor }) }
    ensures back { IfOk result (λ s. s.back ≡ back) }
    ensures store { IfOk result (λ s. s.store ≡ store) }
    ensures ends { IfErr result (IsStartEnd back view store.items) }
{
    match start(alloc, view, back, release, store) {
        Ok(service) => Ok(service),
        Err(
            StartFault::Undecodable {
                key,
                version,
                minor,
            },
        ) => Err(StoreFault::Undecodable {
            key,
            version,
            minor,
        }),
        Err(StartFault::Memory) => Err(StoreFault::Memory),
    }
}

/// A session of the server.
fn served<W: Front>(
    alloc: Global,
    service: &mut Service,
    world: &mut W,
) -> Result<Served, StoreFault>
    requires start { IsAtStart (W.beside world.old) }
    requires stands { StandsOnDisk W.tells (W.held world.old) (W.pending world.old) service.old }
    ensures serves { W.tells → ServesAs W.clock W.may_leave W.beside
        (server_of service.old) (server_of service.new) world.old world.new result }
    ensures drawn { W.tells → HasDrawn 4096 (W.beside world.old) (W.beside world.new) }
    ensures revision { IfOk result (λ served. served.revision ≡ service.new.state.revision) }
    ensures counts { CountsFailure (W.faults world.old) (W.faults world.new) (IsErrOf result StoreFault.Disk) }
    ensures front { IsErrOf result StoreFault.Front → IsAboveMark (W.beside world.new) }
{
    match session(alloc, service, world) {
        Ok(served) => Ok(served),
        Err(SessionFault::Front) => Err(StoreFault::Front),
        Err(SessionFault::Disk) => Err(StoreFault::Disk),
        Err(SessionFault::Memory) => Err(StoreFault::Memory),
        Err(SessionFault::Spent) => Err(StoreFault::Spent),
    }
}

/// Opens the store of the front's disk, starts a server from its records, and serves the connections of the front until it
/// ends. The server emulates the release of `view`, by a binary of `release`; both views are of one history, and `back` is
/// that of the minimum compatibility. Memory may run out at the opening, at the start, and between two writes.
pub fn serve_store<W: Front>(
    alloc: Global,
    view: View,
    back: View,
    release: Minor,
    world: &mut W,
) -> Result<Served, StoreFault>
    requires one { (history : Dated) × AreOfOneHistory history back view }
    requires start { IsAtStart (W.beside world.old) }
    ensures ends { W.tells → IsStoreEnd W.clock W.may_leave W.held W.pending W.beside
        (record { view = view; release = release; back = back.minor }) back world.old world.new result }
    ensures drawn { W.tells → HasDrawn 4096 (W.beside world.old) (W.beside world.new) }
    ensures faults { CountsFailure (W.faults world.old) (W.faults world.new) (IsErrOf result StoreFault.Disk) }
    ensures front { IsErrOf result StoreFault.Front → IsAboveMark (W.beside world.new) }
{
    let store = opened(alloc, world)?;
    let mut service = started(alloc, view, back, release, store)?;
    service_is_kept(&service);
    served(alloc, &mut service, world)
}
