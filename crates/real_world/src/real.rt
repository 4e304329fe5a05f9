//! The real world.
ghost use Rattle.std.specs.Prelude.{◌≡◌, ◌≤◌, ◌<◌, ◌+◌, ◌^◌, [], length, IfOk, IfErr, OnOk, OnErr, IsErr, IsOkAnd, IsSome, IsNone, Ok};
ghost use Rattle.basis.specs.Counts.{HasCause};
ghost use Rattle.disk.specs.Calls.{Spares};
ghost use Rattle.disk.specs.Counted.{counted, CountsFaults};
ghost use Rattle.disk.specs.Images.{resting, end_of_lengths};
ghost use Rattle.disk.specs.Moments.{Ticks};
ghost use Rattle.world.specs.Fronts.{IsAtStart, IsNumbered, LeavesSends, LeavesEvents};
ghost use Rattle.real_world.specs.Faults.{IsFaultOfSome};
ghost use Rattle.real_world.specs.Opened.{opened_by};
ghost use Rattle.real_world.specs.Worlds.{beside_of, BringsScript, IsMissing, TakesOfScript};

use crate::clients::Clients;
use crate::fault::WorldFault;
use crate::listener::Listener;
use crate::outgoing::Outgoing;
use crate::script::read_script;
use crate::store::Store;
use basis::Memory;
use disk::{Disk, Failed, File, FileDisk, LockFile};
use minor_version::Blob;
use std::alloc::Global;
use std::io;
use std::net::Net;
use std::rt::Files;
use std::time::Clock;
use words::Places;
use world::{Event, Front, Tape};

/// A disk of files, and connections that a script or a listener brings. It tells nothing, and counts the machine's errors.
/// Without a store each of its calls that can fail does so.
#[derive(Drop)]
pub struct RealWorld<'a, R: Files + Print + Clock> {
    rt: &'a R,
    store: Store<R>,
    clients: Clients,
    outgoing: Outgoing,
    front_faults: u64,
    send_mark: u64,
}

fn clients_of<R: Files + Net + Eprint>(
    rt: &R,
    alloc: Global,
    places: &Places,
    store: &str,
) -> Result<Clients, WorldFault>
    ensures ok { IfOk result (λ clients. opened_by clients ≡ 0) }
    ensures err { IfErr result IsFaultOfSome }
{
    let Some(port) = places.port else {
        return Ok(Clients::Nobody);
    };
    let listener = Listener::bind(rt, alloc, port, places.connections)?;
    // Where this can't be told, the server serves all the same.
    let _ = eprintln!(rt; "kube_emu: serving 127.0.0.1:{port} on store {store}");
    Ok(Clients::Listening(listener))
}

impl<'a, R: Files + Print + Clock> RealWorld<'a, R> {
    /// The world at the places. The script, if there is one, is read before the folder of the store is made, and the
    /// folder is made before the port is bound.
    pub fn from(rt: &'a R, alloc: Global, places: &Places) -> Result<Self, WorldFault>
    where
        R: Net + Eprint,
        R::File: LockFile,
        ensures start { IfOk result (λ w. IsAtStart (beside_of w)) }
        ensures counts { IfOk result
            (λ w. (w.front_faults ≡ 0) × (w.store.faults ≡ 0) × (w.store.clock ≡ 0)) }
        ensures err { IfErr result IsFaultOfSome }

        // Without a store there is a world all the same.
        ensures missing { IsNone places.now.store → IsOkAnd result (λ w. IsMissing w.store.disk w.clients) }
        ensures script { IsSome places.now.store → IsSome places.now.script → IfOk result
            (λ w. BringsScript w.clients) }
    {
        let Some(store) = &places.store else {
            return Ok(RealWorld::new(rt, alloc, None, Clients::Nobody));
        };
        let store = store.as_str();
        if let Some(path) = &places.script {
            let script = read_script(rt, alloc, path.as_str())?;
            let disk = FileDisk::at(rt, alloc, store)?;
            return Ok(RealWorld::new(rt, alloc, Some(disk), Clients::Script(Tape::new(script))));
        }
        let disk = FileDisk::at(rt, alloc, store)?;
        let clients = clients_of(rt, alloc, places, store)?;
        Ok(RealWorld::new(rt, alloc, Some(disk), clients))
    }

    fn new(rt: &'a R, alloc: Global, disk: Option<FileDisk<R>>, clients: Clients) -> Self
        requires { opened_by clients ≡ 0 }
        ensures store { result.store ≡ record { disk = disk; clock = 0; faults = 0 } }
        ensures clients { result.clients ≡ clients }
        ensures faults { result.front_faults ≡ 0 }
        ensures start { IsAtStart (beside_of result) }
    {
        RealWorld {
            rt,
            store: Store::new(disk),
            clients,
            outgoing: Outgoing::new(alloc),
            front_faults: 0,
            send_mark: 0,
        }
    }

    // Counts an error of the front.
    fn told<T>(&mut self, done: io::Result<T>) -> Result<T, Failed>
        ensures value { IfOk result (λ value. done ≡ Ok value) }
        ensures error { OnErr result (IsErr done) }
        ensures same { self.new ≡ record self.old { front_faults = self.new.front_faults } }
        ensures counts { CountsFaults self.old.front_faults self.new.front_faults result }
        ensures cause { HasCause self.old.front_faults self.new.front_faults result }
    {
        match done {
            Ok(value) => Ok(value),
            Err(_) => {
                self.front_faults = self.front_faults.saturating_add(1);
                Err(Failed)
            }
        }
    }
}

impl<'a, R: Files + Print + Clock> Disk for RealWorld<'a, R> {
    ghost faults = { λ w. w.store.faults };

    ghost clock = { λ w. w.store.clock };

    ghost tells = { ⊥ };

    ghost held = { λ _ _. [] };

    ghost pending = { λ _ _. resting [] };

    ghost may_leave = { λ _ _ _. ⊥ };

    ghost beside = { beside_of };

    ghost images_now = { λ w images told now. absurd told };

    ghost held_now = { λ w told. absurd told };

    fn len(&mut self, file: File) -> Result<u64, Failed>
        ensures short { IfOk result (λ n. n < end_of_lengths) }
        ensures clock { self.new.store.clock ≡ self.old.store.clock }
        ensures spares { Spares beside_of (λ w. w.store.faults) self.old self.new (IsErr result) }
        ensures counts { CountsFaults self.old.store.faults self.new.store.faults result }
        ensures rest { self.new ≡ record self.old { store = self.new.store } }
        ensures missing { IsNone self.old.store.disk → IsErr result × IsNone self.new.store.disk }
    {
        self.store.len(file)
    }

    fn read_at(&mut self, file: File, at: u64, into: &mut [u8]) -> Result<(), Failed>
        ensures clock { self.new.store.clock ≡ self.old.store.clock }
        ensures spares { Spares beside_of (λ w. w.store.faults) self.old self.new (IsErr result) }
        ensures counts { CountsFaults self.old.store.faults self.new.store.faults result }
        ensures rest { self.new ≡ record self.old { store = self.new.store } }
        ensures missing { IsNone self.old.store.disk → IsErr result × IsNone self.new.store.disk }
    {
        self.store.read_at(file, at, into)
    }

    fn write_at(&mut self, file: File, at: u64, bytes: &[u8]) -> Result<(), Failed>
        ensures short { OnOk result (at + length bytes.now < end_of_lengths) }
        ensures clock { Ticks self.old.store.clock self.new.store.clock result }
        ensures spares { Spares beside_of (λ w. w.store.faults) self.old self.new (IsErr result) }
        ensures counts { CountsFaults self.old.store.faults self.new.store.faults result }
        ensures rest { self.new ≡ record self.old { store = self.new.store } }
        ensures missing { IsNone self.old.store.disk → IsErr result × IsNone self.new.store.disk }
    {
        self.store.write_at(file, at, bytes)
    }

    fn cut(&mut self, file: File, to: u64) -> Result<(), Failed>
        ensures clock { Ticks self.old.store.clock self.new.store.clock result }
        ensures spares { Spares beside_of (λ w. w.store.faults) self.old self.new (IsErr result) }
        ensures counts { CountsFaults self.old.store.faults self.new.store.faults result }
        ensures rest { self.new ≡ record self.old { store = self.new.store } }
        ensures missing { IsNone self.old.store.disk → IsErr result × IsNone self.new.store.disk }
    {
        self.store.cut(file, to)
    }

    fn sync(&mut self, file: File) -> Result<(), Failed>
        ensures clock { Ticks self.old.store.clock self.new.store.clock result }
        ensures spares { Spares beside_of (λ w. w.store.faults) self.old self.new (IsErr result) }
        ensures counts { CountsFaults self.old.store.faults self.new.store.faults result }
        ensures rest { self.new ≡ record self.old { store = self.new.store } }
        ensures missing { IsNone self.old.store.disk → IsErr result × IsNone self.new.store.disk }
    {
        self.store.sync(file)
    }
}

impl<'a, R: Files + Print + Clock> Front for RealWorld<'a, R> {
    fn next(&mut self, into: &mut [u8]) -> Result<Event, Failed>
        requires { 1 ≤ length into.old }
        ensures numbered { IfOk result
            (λ e. IsNumbered (length into.old) e (opened_by self.old.clients) (opened_by self.new.clients)) }
        ensures bound { opened_by self.new.clients < 2 ^ 32 }
        ensures failed { OnErr result (LeavesEvents (beside_of self.old) (beside_of self.new)) }
        ensures sends { LeavesSends (beside_of self.old) (beside_of self.new) }
        ensures fine { OnOk result (self.new.front_faults ≡ self.old.front_faults) }
        ensures cause { HasCause self.old.front_faults self.new.front_faults result }
        ensures counts { CountsFaults self.old.front_faults self.new.front_faults result }
        ensures store { self.new.store ≡ self.old.store }
        ensures missing { IsMissing self.old.store.disk self.old.clients → IsErr result
            × IsMissing self.new.store.disk self.new.clients }
        ensures script { IfOk result
            (λ e. TakesOfScript (length into.old) e into.new self.old.clients self.new.clients) }
    {
        let event = self.clients.next(self.rt, into, &mut self.outgoing);
        let _opened = self.clients.opened();
        self.told(event)
    }

    fn room(&mut self) -> Result<(), Memory>
        ensures ok { OnOk result (1 ≤ self.new.outgoing.spare) }
        ensures err { OnErr result (self.new.outgoing.spare ≡ self.old.outgoing.spare) }
        ensures same { self.new ≡ record self.old { outgoing = self.new.outgoing } }
    {
        self.outgoing.make_room()
    }

    fn send(&mut self, c: u32, bytes: Blob, last: bool) -> Result<(), Failed>
        requires opened { c < opened_by self.old.clients }
        requires room { 1 ≤ self.old.outgoing.spare }
        ensures events { LeavesEvents (beside_of self.old) (beside_of self.new) }
        ensures spare { self.new.outgoing.spare + 1 ≡ self.old.outgoing.spare }
        ensures mark { self.new.send_mark ≡ self.new.front_faults }
        ensures cause { HasCause self.old.front_faults self.new.front_faults result }
        ensures counts { CountsFaults self.old.front_faults self.new.front_faults result }
        ensures store { self.new.store ≡ record self.old.store { clock = counted self.old.store.clock } }
    {
        let sent = self
            .clients
            .send(self.rt, c, bytes, last, &mut self.outgoing);
        self.store.pass();
        let told = self.told(sent);
        self.send_mark = self.front_faults;
        told
    }
}
