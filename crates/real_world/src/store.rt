//! The disk of a world, if it has one. Where it has none, each call fails.
ghost use Rattle.std.specs.Prelude.{◌≡◌, ◌<◌, ◌+◌, ◌-◌, ◌^◌, [], length, IfOk, OnOk, OnErr, IsErr, IsNone};
ghost use Rattle.disk.specs.Beside.{alone};
ghost use Rattle.disk.specs.Calls.{Spares};
ghost use Rattle.disk.specs.Counted.{counted, CountsFaults};
ghost use Rattle.disk.specs.Images.{resting, end_of_lengths};
ghost use Rattle.disk.specs.Moments.{Ticks};

use disk::{Disk, Failed, File, FileDisk};
use std::rt::Files;

fn len_of<R: Files>(disk: &mut Option<FileDisk<R>>, file: File) -> Result<u64, Failed>
    ensures short { IfOk result (λ n. n < end_of_lengths) }
    ensures missing { IsNone disk.old → IsErr result × IsNone disk.new }
{
    match disk {
        Some(disk) => disk.len(file),
        None => Err(Failed),
    }
}

fn read_from<R: Files>(
    disk: &mut Option<FileDisk<R>>,
    file: File,
    at: u64,
    into: &mut [u8],
) -> Result<(), Failed>
    ensures { IsNone disk.old → IsErr result × IsNone disk.new }
{
    match disk {
        Some(disk) => disk.read_at(file, at, into),
        None => Err(Failed),
    }
}

fn write_to<R: Files>(
    disk: &mut Option<FileDisk<R>>,
    file: File,
    at: u64,
    bytes: &[u8],
) -> Result<(), Failed>
    ensures short { OnOk result (at + length bytes.now < end_of_lengths) }
    ensures missing { IsNone disk.old → IsErr result × IsNone disk.new }
{
    match disk {
        Some(disk) => disk.write_at(file, at, bytes),
        None => Err(Failed),
    }
}

fn cut_at<R: Files>(disk: &mut Option<FileDisk<R>>, file: File, to: u64) -> Result<(), Failed>
    ensures { IsNone disk.old → IsErr result × IsNone disk.new }
{
    match disk {
        Some(disk) => disk.cut(file, to),
        None => Err(Failed),
    }
}

fn sync_of<R: Files>(disk: &mut Option<FileDisk<R>>, file: File) -> Result<(), Failed>
    ensures { IsNone disk.old → IsErr result × IsNone disk.new }
{
    match disk {
        Some(disk) => disk.sync(file),
        None => Err(Failed),
    }
}

/// A disk of files or none, and the counts of its calls.
#[derive(Drop)]
pub struct Store<R: Files> {
    disk: Option<FileDisk<R>>,
    clock: u64,
    faults: u64,
}

impl<R: Files> Store<R> {
    /// The store on this disk, of which no call was made.
    pub fn new(disk: Option<FileDisk<R>>) -> Self
        ensures { result ≡ record { disk = disk; clock = 0; faults = 0 } }
    {
        Store {
            disk,
            clock: 0,
            faults: 0,
        }
    }

    /// Raises the clock, unless it stands at its greatest value.
    pub fn pass(&mut self)
        ensures { self.new ≡ record self.old { clock = counted self.old.clock } }
    {
        self.clock = self.clock.saturating_add(1);
    }

    // Counts a call that failed.
    fn told<T>(&mut self, done: Result<T, Failed>) -> Result<T, Failed>
        ensures done { result ≡ done }
        ensures same { self.new ≡ record self.old { faults = self.new.faults } }
        ensures counts { CountsFaults self.old.faults self.new.faults result }
        ensures spares { Spares (λ _. alone) (λ s. s.faults) self.old self.new (IsErr result) }
    {
        if done.is_err() {
            self.faults = self.faults.saturating_add(1);
        }
        done
    }

    // Raises the clock for a call that may change a file. Where it can't rise any more, such a call fails.
    fn tick(&mut self) -> Result<(), Failed>
        ensures same { self.new ≡ record self.old { clock = counted self.old.clock; faults = self.new.faults } }
        ensures end { OnErr result (self.old.clock ≡ 2 ^ 64 - 1) }
        ensures clock { Ticks self.old.clock self.new.clock result }
        ensures counts { CountsFaults self.old.faults self.new.faults result }
        ensures spares { Spares (λ _. alone) (λ s. s.faults) self.old self.new (IsErr result) }
    {
        if self.clock == u64::MAX {
            self.faults = self.faults.saturating_add(1);
            return Err(Failed);
        }
        self.clock += 1;
        Ok(())
    }
}

impl<R: Files> Disk for Store<R> {
    ghost faults = { λ s. s.faults };

    ghost clock = { λ s. s.clock };

    ghost tells = { ⊥ };

    ghost held = { λ _ _. [] };

    ghost pending = { λ _ _. resting [] };

    ghost may_leave = { λ _ _ _. ⊥ };

    ghost beside = { λ _. alone };

    ghost images_now = { λ s images told now. absurd told };

    ghost held_now = { λ s told. absurd told };

    fn len(&mut self, file: File) -> Result<u64, Failed>
        ensures short { IfOk result (λ n. n < end_of_lengths) }
        ensures clock { self.new.clock ≡ self.old.clock }
        ensures spares { Spares (λ _. alone) (λ s. s.faults) self.old self.new (IsErr result) }
        ensures counts { CountsFaults self.old.faults self.new.faults result }
        ensures missing { IsNone self.old.disk → IsErr result × IsNone self.new.disk }
    {
        let len = len_of(&mut self.disk, file);
        self.told(len)
    }

    fn read_at(&mut self, file: File, at: u64, into: &mut [u8]) -> Result<(), Failed>
        ensures clock { self.new.clock ≡ self.old.clock }
        ensures spares { Spares (λ _. alone) (λ s. s.faults) self.old self.new (IsErr result) }
        ensures counts { CountsFaults self.old.faults self.new.faults result }
        ensures missing { IsNone self.old.disk → IsErr result × IsNone self.new.disk }
    {
        let done = read_from(&mut self.disk, file, at, into);
        self.told(done)
    }

    fn write_at(&mut self, file: File, at: u64, bytes: &[u8]) -> Result<(), Failed>
        ensures short { OnOk result (at + length bytes.now < end_of_lengths) }
        ensures clock { Ticks self.old.clock self.new.clock result }
        ensures spares { Spares (λ _. alone) (λ s. s.faults) self.old self.new (IsErr result) }
        ensures counts { CountsFaults self.old.faults self.new.faults result }
        ensures missing { IsNone self.old.disk → IsErr result × IsNone self.new.disk }
    {
        self.tick()?;
        let done = write_to(&mut self.disk, file, at, bytes);
        self.told(done)
    }

    fn cut(&mut self, file: File, to: u64) -> Result<(), Failed>
        ensures clock { Ticks self.old.clock self.new.clock result }
        ensures spares { Spares (λ _. alone) (λ s. s.faults) self.old self.new (IsErr result) }
        ensures counts { CountsFaults self.old.faults self.new.faults result }
        ensures missing { IsNone self.old.disk → IsErr result × IsNone self.new.disk }
    {
        self.tick()?;
        let done = cut_at(&mut self.disk, file, to);
        self.told(done)
    }

    fn sync(&mut self, file: File) -> Result<(), Failed>
        ensures clock { Ticks self.old.clock self.new.clock result }
        ensures spares { Spares (λ _. alone) (λ s. s.faults) self.old self.new (IsErr result) }
        ensures counts { CountsFaults self.old.faults self.new.faults result }
        ensures missing { IsNone self.old.disk → IsErr result × IsNone self.new.disk }
    {
        self.tick()?;
        let done = sync_of(&mut self.disk, file);
        self.told(done)
    }
}
