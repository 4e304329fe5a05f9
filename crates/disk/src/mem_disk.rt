ghost use Rattle.std.specs.Prelude.{◌≡◌, ◌≤◌, ◌⊎◌, ◌↔◌, ◌<◌, ◌^◌, ◌-◌, ◌+◌, List, [], ◌∷◌, ◌++◌, ℕ, length, IsTrue, IfSome, IfNone, IfOk, take, drop, IsErr, OnOk, OnErr, Contains};
ghost use Rattle.disk.specs.Beside.{alone};
ghost use Rattle.disk.specs.Calls.{Spares};
ghost use Rattle.disk.specs.Counted.{counted};
ghost use Rattle.disk.specs.Images.{Images, end_of_lengths, patched, resting, after_write, after_cut, at_file, IsImage, Each, IsStill, Within, Becomes, OthersHold, OthersWithin};
ghost use Rattle.disk.specs.MemDisk.{MemRecord, state_at, mem_held, mem_pending, mem_may_leave, fresh, called, ticked, blamed, hungry, noted, InPast, KeepsHeld, IsListed, IsWriteCall, IsCutCall, IsSyncCall};
ghost use Rattle.disk.specs.Moments.{Elapses, Ticks, Unchanged};
ghost use Rattle.disk.specs.Slots.{file_of};
ghost use Rattle.disk.specs.Stops.{IsPicked};
ghost use Rattle.disk.specs.declared.file.File.{File as FileS};

use crate::disk::Disk;
use crate::fail_list::FailList;
use crate::failed::Failed;
use crate::file::File;
use crate::log::{Change, Entry};
use crate::slots::{Slots, fits};
use crate::stop::image_of;
use basis::Memory;
use minor_version::Blob;
use std::alloc::Global;
use std::marker::Model;

/// A disk in memory. It tells its content, fails the calls of its list, and keeps a record of its calls, by which it
/// answers for every moment of its past.
#[derive(Debug, Drop)]
pub struct MemDisk {
    alloc: Global,
    slots: Slots,
    log: Vec<Entry>,
    clock: u64,
    faults: u64,
    starved: u64,
    calls: u64,
    fail: FailList,
}

impl Model for MemDisk {
    ghost use Rattle.std.specs.Prelude.{◌≡◌};
    ghost use Rattle.disk.specs.MemDisk.{MemRecord, InPast, state_in};
    ghost use Rattle.disk.specs.Slots.{first_in, held_in};
    ghost use Rattle.disk.specs.declared.file.File.{File as FileS};

    ghost Value = { MemRecord };

    ghost view = { λ m. record {
      first = first_in m.slots;
      log = m.log.items;
      clock = m.clock;
      faults = m.faults;
      starved = m.starved;
      calls = m.calls;
      fails = m.fail;
    } };

    ghost invariant = { λ m. record {
      past : InPast m.clock m.log.items;
      held : (f : FileS) → held_in m.slots f ≡ (state_in (first_in m.slots) m.log.items m.clock f).held;
    } };
}

fn append(log: &mut Vec<Entry>, entry: Entry) -> Result<(), Memory>
    ensures ok { OnOk result (log.new.items ≡ log.old.items ++ entry ∷ []) }
    ensures err { OnErr result (log.new.items ≡ log.old.items) }
{
    match log.push(entry) {
        Ok(()) => Ok(()),
        Err(_) => Err(Memory),
    }
}

impl MemDisk {
    /// A disk that holds these bytes, of which nothing is pending. It fails the calls whose numbers, counted from 1 over
    /// all five kinds, are in the list.
    pub fn new(alloc: Global, choice: Blob, left: Blob, right: Blob, fail: FailList) -> Self
        ensures fresh { result ≡ fresh (record { choice = choice; left = left; right = right }) fail }
        ensures held { mem_held result ≡ file_of (record { choice = choice; left = left; right = right }) }
        ensures still { (f : FileS) → IsStill (mem_held result) (mem_pending result) f }
        ensures counts { (result.clock ≡ 0) × (result.faults ≡ 0) × (result.starved ≡ 0) }
    {
        MemDisk {
            alloc,
            slots: Slots::new(choice, left, right),
            log: Vec::new(alloc),
            clock: 0,
            faults: 0,
            starved: 0,
            calls: 0,
            fail,
        }
    }

    /// The bytes that a file holds.
    pub fn held_bytes(&self, file: File) -> &[u8]
        ensures { result.now ≡ mem_held self.now file }
    {
        self.slots.held(file)
    }

    /// The clock.
    pub fn moment(&self) -> u64
        ensures { result ≡ self.now.clock }
    {
        self.clock
    }

    /// How many calls found no memory.
    pub fn starved(&self) -> u64
        ensures { result ≡ self.now.starved }
    {
        self.starved
    }

    /// Raises the clock, unless it stands at its greatest value. The new moment has the images of the present.
    pub fn pass(&mut self)
        ensures passed { self.new ≡ record self.old { clock = counted self.old.clock } }
        ensures held { mem_held self.new ≡ mem_held self.old }
        ensures pending { mem_pending self.new ≡ mem_pending self.old }
        ensures time { Elapses self.old.clock self.new.clock (mem_may_leave self.old) (mem_may_leave self.new)
            (λ _. mem_may_leave self.old self.old.clock) }
        ensures images { (images : Images) → mem_may_leave self.new self.new.clock images
            ↔ mem_may_leave self.old self.old.clock images }
    {
        self.clock = self.clock.saturating_add(1);
    }

    /// A disk as a stop at the moment leaves it: still, with its counts at 0 and no call to fail. Pick 0 loses all that is
    /// pending, pick 1 keeps it, and any other takes the greatest length, and puts the byte `pick` modulo 256 wherever any
    /// byte may stand.
    pub fn after_stop(&self, t: u64, pick: u64) -> Result<MemDisk, Memory>
        requires { t ≤ self.now.clock }
        ensures image { IfOk result (λ d. mem_may_leave self.now t (mem_held d)) }
        ensures picked { IfOk result (λ d. (f : FileS)
            → IsPicked pick (state_at self.now t f) (mem_held d f)) }
        ensures still { IfOk result (λ d. (f : FileS) → IsStill (mem_held d) (mem_pending d) f) }
        ensures fresh { IfOk result (λ d. d ≡ fresh d.first []) }
    {
        let choice = self.image(File::Choice, t, pick)?;
        let left = self.image(File::Left, t, pick)?;
        let right = self.image(File::Right, t, pick)?;
        let fail = FailList::new(self.alloc, &[])?;
        Ok(MemDisk::new(self.alloc, choice, left, right, fail))
    }

    // What a stop at the moment leaves of a file.
    fn image(&self, file: File, t: u64, pick: u64) -> Result<Blob, Memory>
        ensures { IfOk result (λ image. IsPicked pick (state_at self.now t file) image) }
    {
        image_of(
            self.alloc,
            self.slots.first(file),
            self.log.as_slice(),
            file,
            t,
            pick,
        )
    }
}

// The parts of a call.
impl MemDisk {
    // Counts a call, and says whether it is one that fails.
    fn count_call(&mut self) -> bool
        ensures counted { self.new ≡ called self.old }
        ensures listed { IsTrue result ↔ IsListed self.old }
        ensures fits { self.old.faults < 2 ^ 64 }
    {
        let _ = self.faults;
        self.calls = self.calls.saturating_add(1);
        self.fail.contains(self.calls)
    }

    // Counts a call that may change a file and raises the clock, and says whether the call is one that fails. None where
    // the clock stands at its end.
    fn begin(&mut self) -> Option<bool>
        ensures begun { IfSome result (λ _. self.new ≡ ticked (called self.old)) }
        ensures listed { IfSome result (λ listed. IsTrue listed ↔ IsListed self.old) }
        ensures room { IfSome result (λ _. self.old.clock < 2 ^ 64 - 1) }
        ensures none { IfNone result ((self.new ≡ called self.old) × (self.old.clock ≡ 2 ^ 64 - 1)) }
        ensures held { (f : FileS) → mem_held self.new f ≡ mem_held self.old f }
        ensures past { InPast self.old.clock self.old.log }
        ensures fits { (self.old.faults < 2 ^ 64) × (self.old.clock < 2 ^ 64) }
    {
        let _ = self.faults;
        self.calls = self.calls.saturating_add(1);
        if self.clock == u64::MAX {
            return None;
        }
        self.clock += 1;
        Some(self.fail.contains(self.calls))
    }

    fn fault(&mut self) -> Failed
        ensures { self.new ≡ blamed self.old }
    {
        self.faults = self.faults.saturating_add(1);
        Failed
    }

    // A call that found no memory.
    fn starve(&mut self) -> Failed
        ensures { self.new ≡ hungry self.old }
    {
        self.starved = self.starved.saturating_add(1);
        self.faults = self.faults.saturating_add(1);
        Failed
    }

    // Records a change after which the file holds what it held.
    fn note(&mut self, file: File, change: Change) -> Result<(), Memory>
        requires { KeepsHeld change }
        ensures ok { OnOk result (self.new ≡ noted self.old file change) }
        ensures err { OnErr result (self.new ≡ self.old) }
    {
        let entry = Entry {
            moment: self.clock,
            file,
            change,
        };
        append(&mut self.log, entry)?;
        Ok(())
    }

    // Puts the bytes into a file, and records it.
    fn write(&mut self, file: File, at: u64, bytes: &[u8]) -> Result<(), Memory>
        requires place { at ≤ length (mem_held self.old file) }
        requires short { at + length bytes.now < end_of_lengths }
        ensures ok { OnOk result (self.new ≡ noted self.old file (Change.Wrote at bytes.now)) }
        ensures err { OnErr result (self.new ≡ self.old) }
    {
        let copy = Blob::copy(self.alloc, bytes)?;
        let entry = Entry {
            moment: self.clock,
            file,
            change: Change::Wrote(at, copy),
        };
        let count = self.log.len();
        append(&mut self.log, entry)?;
        if let Err(memory) = self.slots.write(self.alloc, file, at, bytes) {
            self.log.truncate(count);
            return Err(memory);
        }
        Ok(())
    }

    // Shortens a file, and records it.
    fn shorten(&mut self, file: File, to: u64) -> Result<(), Memory>
        ensures ok { OnOk result (self.new ≡ noted self.old file (Change.Cut to)) }
        ensures err { OnErr result (self.new ≡ self.old) }
    {
        let entry = Entry {
            moment: self.clock,
            file,
            change: Change::Cut(to),
        };
        let count = self.log.len();
        append(&mut self.log, entry)?;
        if let Err(memory) = self.slots.cut(self.alloc, file, to) {
            self.log.truncate(count);
            return Err(memory);
        }
        Ok(())
    }

    // A call fails that is listed or reaches too far: the failed change is recorded.
    fn refuse(&mut self, file: File, change: Change) -> Failed
        requires { KeepsHeld change }
        ensures { (self.new ≡ hungry self.old) ⊎ (self.new ≡ blamed (noted self.old file change)) }
    {
        match self.note(file, change) {
            Ok(()) => self.fault(),
            Err(_) => self.starve(),
        }
    }

    fn write_call(&mut self, file: File, at: u64, bytes: &[u8]) -> Result<(), Failed>
        requires { at ≤ length (mem_held self.old file) }
        ensures call { IsWriteCall self.old self.new file at bytes.now result }
        ensures past { InPast self.old.clock self.old.log }
        ensures fits { (self.old.faults < 2 ^ 64) × (self.old.clock < 2 ^ 64) }
        ensures short { OnOk result (at + length bytes.now < end_of_lengths) }
    {
        let Some(listed) = self.begin() else {
            return Err(self.fault());
        };
        let count = bytes.len() as u64;
        if listed || !fits(at, count) {
            return Err(self.refuse(file, Change::WriteFailed(at, count)));
        }
        match self.write(file, at, bytes) {
            Ok(()) => Ok(()),
            Err(_) => Err(self.starve()),
        }
    }

    fn cut_call(&mut self, file: File, to: u64) -> Result<(), Failed>
        ensures call { IsCutCall self.old self.new file to result }
        ensures past { InPast self.old.clock self.old.log }
        ensures fits { (self.old.faults < 2 ^ 64) × (self.old.clock < 2 ^ 64) }
    {
        let Some(listed) = self.begin() else {
            return Err(self.fault());
        };
        if listed {
            return Err(self.refuse(file, Change::CutFailed(to)));
        }
        match self.shorten(file, to) {
            Ok(()) => Ok(()),
            Err(_) => Err(self.starve()),
        }
    }

    fn sync_call(&mut self, file: File) -> Result<(), Failed>
        ensures call { IsSyncCall self.old self.new file result }
        ensures past { InPast self.old.clock self.old.log }
        ensures fits { (self.old.faults < 2 ^ 64) × (self.old.clock < 2 ^ 64) }
    {
        let Some(listed) = self.begin() else {
            return Err(self.fault());
        };
        if listed {
            return Err(self.fault());
        }
        match self.note(file, Change::Synced) {
            Ok(()) => Ok(()),
            Err(_) => Err(self.starve()),
        }
    }
}

impl Disk for MemDisk {
    ghost use Rattle.disk.specs.MemLaws.{mem_held_now};

    ghost faults = { λ d. d.faults };

    ghost clock = { λ d. d.clock };

    ghost tells = { Unit {0} };

    ghost held = { mem_held };

    ghost pending = { mem_pending };

    ghost may_leave = { mem_may_leave };

    ghost beside = { λ _. alone };

    ghost images_now = { λ d images told now. now };

    ghost held_now = { λ d told. mem_held_now d };

    fn len(&mut self, file: File) -> Result<u64, Failed>
        ensures len { IfOk result (λ n. n ≡ length (mem_held self.old file)) }
        ensures short { IfOk result (λ n. n < end_of_lengths) }
        ensures same { Unchanged (λ d. d.clock) mem_may_leave mem_held mem_pending self.old self.new }
        ensures clock { self.new.clock ≡ self.old.clock }
        ensures spares { Spares (λ _. alone) (λ d. d.faults) self.old self.new (IsErr result) }

        // The listed calls fail, and no others.
        ensures listed { IsErr result ↔ IsListed self.old }
        ensures ok { OnOk result (self.new ≡ called self.old) }
        ensures err { OnErr result (self.new ≡ blamed (called self.old)) }
    {
        if self.count_call() {
            return Err(self.fault());
        }
        Ok(self.held_bytes(file).len() as u64)
    }

    fn read_at(&mut self, file: File, at: u64, into: &mut [u8]) -> Result<(), Failed>
        requires { at + length into.old ≤ length (mem_held self.old file) }
        ensures bytes { OnOk result (into.new ≡ take (length into.old) (drop at (mem_held self.old file))) }
        ensures same { Unchanged (λ d. d.clock) mem_may_leave mem_held mem_pending self.old self.new }
        ensures clock { self.new.clock ≡ self.old.clock }
        ensures spares { Spares (λ _. alone) (λ d. d.faults) self.old self.new (IsErr result) }
        ensures listed { IsErr result ↔ IsListed self.old }
        ensures ok { OnOk result (self.new ≡ called self.old) }
        ensures err { OnErr result (self.new ≡ blamed (called self.old)) }
    {
        if self.count_call() {
            return Err(self.fault());
        }
        let held = self.held_bytes(file);
        let end = at as usize + into.len();
        into.copy_from_slice(&held[at as usize..end]);
        Ok(())
    }

    fn write_at(&mut self, file: File, at: u64, bytes: &[u8]) -> Result<(), Failed>
        requires { at ≤ length (mem_held self.old file) }
        ensures written { OnOk result (mem_held self.new file
            ≡ patched (mem_held self.old file) at bytes.now) }
        ensures short { OnOk result (at + length bytes.now < end_of_lengths) }
        ensures failed { OnErr result
            (IsImage (after_write at (length bytes.now) (resting (mem_held self.old file))) (mem_held self.new file)) }
        ensures too_far { end_of_lengths ≤ at + length bytes.now → mem_held self.new file
            ≡ mem_held self.old file }
        ensures others { OthersHold file (mem_held self.old) (mem_held self.new) }
        ensures pending { Becomes file (after_write at (length bytes.now)) (mem_pending self.old) (mem_pending self.new) }
        ensures time { Elapses self.old.clock self.new.clock (mem_may_leave self.old) (mem_may_leave self.new)
            (λ _. Each (at_file file (after_write at (length bytes.now)) (mem_pending self.old))) }
        ensures clock { Ticks self.old.clock self.new.clock result }
        ensures at_end { self.old.clock ≡ 2 ^ 64 - 1
            → Unchanged (λ d. d.clock) mem_may_leave mem_held mem_pending self.old self.new }
        ensures spares { Spares (λ _. alone) (λ d. d.faults) self.old self.new (IsErr result) }

        // At `Failed` the files hold what they held.
        ensures kept { OnErr result (mem_held self.new ≡ mem_held self.old) }
        ensures call { IsWriteCall self.old self.new file at bytes.now result }
    {
        self.write_call(file, at, bytes)
    }

    fn cut(&mut self, file: File, to: u64) -> Result<(), Failed>
        requires { to ≤ length (mem_held self.old file) }
        ensures shortened { OnOk result (mem_held self.new file ≡ take to (mem_held self.old file)) }
        ensures failed { OnErr result ((mem_held self.new file ≡ mem_held self.old file)
            ⊎ (mem_held self.new file ≡ take to (mem_held self.old file))) }
        ensures others { OthersHold file (mem_held self.old) (mem_held self.new) }
        ensures pending { Becomes file (after_cut to) (mem_pending self.old) (mem_pending self.new) }
        ensures time { Elapses self.old.clock self.new.clock (mem_may_leave self.old) (mem_may_leave self.new)
            (λ _. Each (at_file file (after_cut to) (mem_pending self.old))) }
        ensures clock { Ticks self.old.clock self.new.clock result }
        ensures at_end { self.old.clock ≡ 2 ^ 64 - 1
            → Unchanged (λ d. d.clock) mem_may_leave mem_held mem_pending self.old self.new }
        ensures spares { Spares (λ _. alone) (λ d. d.faults) self.old self.new (IsErr result) }

        // At `Failed` the files hold what they held.
        ensures kept { OnErr result (mem_held self.new ≡ mem_held self.old) }
        ensures call { IsCutCall self.old self.new file to result }
    {
        self.cut_call(file, to)
    }

    fn sync(&mut self, file: File) -> Result<(), Failed>
        ensures still { OnOk result (IsStill (mem_held self.new) (mem_pending self.new) file) }
        ensures held { mem_held self.new ≡ mem_held self.old }
        ensures failed { OnErr result (Within (mem_pending self.new file) (mem_pending self.old file)) }
        ensures others { OthersWithin file (mem_pending self.old) (mem_pending self.new) }
        ensures time { Elapses self.old.clock self.new.clock (mem_may_leave self.old) (mem_may_leave self.new)
            (λ _. Each (mem_pending self.old)) }
        ensures clock { Ticks self.old.clock self.new.clock result }
        ensures at_end { self.old.clock ≡ 2 ^ 64 - 1
            → Unchanged (λ d. d.clock) mem_may_leave mem_held mem_pending self.old self.new }
        ensures spares { Spares (λ _. alone) (λ d. d.faults) self.old self.new (IsErr result) }
        ensures call { IsSyncCall self.old self.new file result }
    {
        self.sync_call(file)
    }
}
