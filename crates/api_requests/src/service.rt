//! A server over a store.
ghost use Rattle.std.specs.Prelude.{◌≡◌, false, None, Some, Contains, IfOk, IfErr, IsErr, IsErrOf, IsOk, OnOk, OnErr, option_copied};
ghost use Rattle.disk.specs.Calls.{Spares};
ghost use Rattle.http_front.specs.Replies.{reply_codes};
ghost use Rattle.object_journal.specs.Standing.{Writes};
ghost use Rattle.object_state.specs.State.{IsApplied, IsNext};
ghost use Rattle.plain_machine.specs.Deciding.{IsDecided};
ghost use Rattle.plain_machine.specs.Steps.{Step};
ghost use Rattle.release_view.specs.Later.{AreOfOneHistory};
ghost use Rattle.schemas.specs.Dated.{Dated};
ghost use Rattle.stored_change.specs.Changes.{IsStorable};
ghost use Rattle.stored_state.specs.Reading.{IsStartFault};
ghost use Rattle.api_requests.specs.Finishing.{ChangesState, GoesOn, LeavesState, LeavesStep, StandsOnDisk};
ghost use Rattle.api_requests.specs.Prepared.{IsReadyIn, IsWriteOf, change_of, decided_of};
ghost use Rattle.api_requests.specs.Serving.{FindsFields, IsAsBefore, IsServing, ended};

use crate::fault::HandleFault;
use crate::prepared::{Prepared, Write};
use basis::Memory;
use disk::{Disk, Failed};
use fields::Fields;
use http_front::{Reply, Request};
use minor_version::Minor;
use object_journal::Key;
use object_state::{Change, State};
use object_store::Store;
use plain_machine::{Decided, Machine, decide, request_has_known_code};
use release_view::View;
use served_steps::{changes_are_storable, standing_objects_fit};
use std::alloc::Global;
use std::marker::Model;
use storage_version::{readable_records_stand, records_are_kept, records_go_on_standing};
use stored_change::ready_change;
use stored_state::{StartFault, read_state};

/// A server over a store. Beside the store it keeps the objects that its records stand for, decoded.
#[derive(Debug, Drop)]
pub struct Service {
    pub(crate) machine: Machine,
    pub(crate) back: View,
    pub(crate) state: State,
    pub(crate) store: Store,
}

impl Model for Service {
    ghost use Rattle.api_requests.specs.Serving.{Serving};
    ghost use Rattle.api_requests.specs.Fields.{IsKeptInside, serving};

    ghost Value = { Serving };

    ghost view = { serving };

    ghost invariant = { IsKeptInside };
}

/// A server over the records of the store, which emulates the release of `view`, by a binary of `release`. Both views are of
/// one history; `back`, that of the minimum compatibility, is of the same release or of one up to three below it. The store
/// hasn't ended. Where one of the two releases doesn't read a record of a kind that is live there, there is none.
pub fn start(
    alloc: Global,
    view: View,
    back: View,
    release: Minor,
    store: Store,
) -> Result<Service, StartFault>
    requires one { (history : Dated) × AreOfOneHistory history back view }
    requires going { store.journal.ended ≡ false }
    ensures machine { IfOk result (λ s. s.machine
        ≡ record { view = view; release = release; back = back.minor }) }
    ensures back { IfOk result (λ s. s.back ≡ back) }
    ensures store { IfOk result (λ s. s.store ≡ store) }
    ensures serves { IfOk result IsServing }
    ensures refused { IfErr result (IsStartFault back view store.items) }
{
    let mut state = read_state(alloc, &view, &back, &store)?;
    state.reserve(alloc)?;
    readable_records_stand(&back, &view);
    let machine = Machine {
        back: back.minor(),
        view,
        release,
    };
    Ok(Service {
        machine,
        back,
        state,
        store,
    })
}

impl Service {
    // Room for the change, and its entry.
    fn write_of(&mut self, alloc: Global, change: Change) -> Result<Write, Memory>
        requires going { self.old.store.journal.ended ≡ false }
        requires storable { IsStorable self.old.back self.old.machine.view self.old.state change }
        ensures change { IfOk result (λ w. w.change ≡ change) }
        ensures write { IfOk result (IsWriteOf self.new) }
        ensures same { IsAsBefore self.old self.new }
        ensures err { OnErr result (self.new ≡ self.old) }
    {
        self.state.reserve(alloc)?;
        let view = &self.machine.view;
        let ready = ready_change(
            alloc,
            view,
            &self.back,
            &mut self.store,
            &self.state,
            &change,
        )?;
        Ok(Write { change, ready })
    }

    // Puts the entry on the disk, and then makes the change.
    fn store_change<D: Disk>(&mut self, write: Write, disk: &mut D) -> Result<(), Failed>
        requires write { IsWriteOf self.old write }
        requires stands { StandsOnDisk D.tells (D.held disk.old) (D.pending disk.old) self.old }
        ensures applied { OnOk result (IsApplied self.old.state write.change self.new.state) }
        ensures on { OnOk result (GoesOn self.old self.new) }
        ensures stands { OnOk result (StandsOnDisk D.tells (D.held disk.new) (D.pending disk.new) self.new) }
        ensures failed { OnErr result (self.new ≡ ended self.old) }
        ensures writes { D.tells → Writes D.clock D.may_leave D.held D.pending disk.old disk.new
            (IsOk result) (LeavesState (D.pending disk.old) self.old (Some write.change)) }
        ensures spares { Spares D.beside D.faults disk.old disk.new (IsErr result) }
    {
        records_go_on_standing(&self.back, &self.machine.view);
        records_are_kept(&self.back, &self.machine.view);
        let Write { change, ready } = write;
        self.store.commit(ready, disk)?;
        self.state.apply(change);
        Ok(())
    }
}

impl Service {
    /// The reply to the request, and the change of the state that goes with it, ready to be stored. All memory that `finish`
    /// needs is taken. The service hasn't ended. The state is as before.
    pub fn prepare(&mut self, alloc: Global, request: &Request) -> Result<Prepared, Memory>
        requires going { self.old.store.journal.ended ≡ false }
        ensures decided { IfOk result (λ p.
            IsDecided self.old.machine self.old.state request.now (decided_of p)) }
        ensures ready { IfOk result (IsReadyIn self.new) }
        ensures code { IfOk result (λ p. Contains reply_codes p.reply.code) }
        ensures same { IsAsBefore self.old self.new }
        ensures err { OnErr result (self.new ≡ self.old) }
    {
        standing_objects_fit(&self.machine.view);
        changes_are_storable(&self.back, &self.machine);
        request_has_known_code(&self.machine, &self.state, request);
        let Decided { reply, change } = decide(alloc, &self.machine, &self.state, request)?;
        let Some(change) = change else {
            return Ok(Prepared { reply, write: None });
        };
        let write = Some(self.write_of(alloc, change)?);
        Ok(Prepared { reply, write })
    }

    /// Stores the change that was prepared, if there is one, and answers the reply. What is prepared is what becomes of a
    /// request in the present state; the store's records stand on this disk. Without a change no call of the disk is made.
    /// Where the disk fails, the service has ended. No memory is taken.
    pub fn finish<D: Disk>(&mut self, prepared: Prepared, disk: &mut D) -> Result<Reply, Failed>
        requires ready { IsReadyIn self.old prepared }
        requires stands { StandsOnDisk D.tells (D.held disk.old) (D.pending disk.old) self.old }
        ensures reply { IfOk result (λ reply. reply ≡ prepared.reply) }
        ensures next { OnOk result (IsNext self.old.state (change_of prepared) self.new.state) }
        ensures on { OnOk result (GoesOn self.old self.new) }
        ensures stands { OnOk result (StandsOnDisk D.tells (D.held disk.new) (D.pending disk.new) self.new) }
        ensures idle { prepared.write ≡ None
            → IsOk result × (self.new ≡ self.old) × (disk.new ≡ disk.old) }
        ensures failed { OnErr result (self.new ≡ ended self.old) }
        ensures writes { D.tells → Writes D.clock D.may_leave D.held D.pending disk.old disk.new
            (IsOk result) (LeavesState (D.pending disk.old) self.old (change_of prepared)) }
        ensures spares { Spares D.beside D.faults disk.old disk.new (IsErr result) }
    {
        let Prepared { reply, write } = prepared;
        let Some(write) = write else {
            return Ok(reply);
        };
        self.store_change(write, disk)?;
        Ok(reply)
    }

    /// The reply to the request, after which the service is in the next state, and its records are on the disk. The service
    /// hasn't ended; the store's records stand on this disk. `Memory` comes before the disk is called.
    pub fn handle<D: Disk>(
        &mut self,
        alloc: Global,
        request: &Request,
        disk: &mut D,
    ) -> Result<Reply, HandleFault>
        requires stands { StandsOnDisk D.tells (D.held disk.old) (D.pending disk.old) self.old }
        ensures step { IfOk result (λ reply.
            Step self.old.machine self.old.state request.now reply self.new.state) }
        ensures on { OnOk result (GoesOn self.old self.new) }
        ensures stands { OnOk result (StandsOnDisk D.tells (D.held disk.new) (D.pending disk.new) self.new) }
        ensures failed { IsErrOf result HandleFault.Disk → self.new ≡ ended self.old }
        ensures changes { IsErrOf result HandleFault.Disk → ChangesState self.old request.now }
        ensures memory { IsErrOf result HandleFault.Memory
            → IsAsBefore self.old self.new × (disk.new ≡ disk.old) }
        ensures writes { D.tells → Writes D.clock D.may_leave D.held D.pending disk.old disk.new
            (IsOk result) (LeavesStep (D.pending disk.old) self.old request.now) }
        ensures spares { Spares D.beside D.faults disk.old disk.new (IsErrOf result HandleFault.Disk) }
    {
        let prepared = self.prepare(alloc, request)?;
        Ok(self.finish(prepared, disk)?)
    }

    /// The fields of the object under the key, in the present state.
    pub fn fields(&self, key: &Key) -> Option<&Fields>
        ensures { FindsFields self.now.state.objects key.now (option_copied result) }
    {
        match self.state.get(key) {
            Some(object) => Some(&object.fields),
            None => None,
        }
    }

    /// The revision of the store.
    pub fn revision(&self) -> u64
        ensures { result ≡ self.now.state.revision }
    {
        self.state.revision()
    }

    /// Whether the disk failed. No request may follow then.
    pub fn has_ended(&self) -> bool
        ensures { result ≡ self.now.store.journal.ended }
    {
        self.store.has_ended()
    }
}
