//! The real disk. What the machine does with its files no contract can see: here is proved what it counts.
ghost use Rattle.std.specs.Prelude.{◌≡◌, ◌+◌, ◌<◌, ◌^◌, ◌-◌, ◌≤◌, ◌↔◌, [], false, length, ◌⊎◌, Ok, IfOk, OnOk, OnErr, IsErr, IsTrue};
ghost use Rattle.std.specs.Fs.{metadata_len};
ghost use Rattle.disk.specs.Beside.{alone};
ghost use Rattle.disk.specs.Calls.{Spares};
ghost use Rattle.disk.specs.Counted.{counted, CountsFaults};
ghost use Rattle.disk.specs.Folder.{file_in, OthersAreSame};
ghost use Rattle.disk.specs.Images.{resting, end_of_lengths};
ghost use Rattle.disk.specs.Moments.{Ticks};

use crate::disk::Disk;
use crate::failed::Failed;
use crate::file::File;
use crate::slots::fits;
use basis::Memory;
use std::alloc::Global;
use std::error::Error;
use std::fs::{Metadata, OpenFile, OpenOptions};
use std::io::{ErrorKind, Read, Seek, SeekFrom, Write};
use std::rt::Files;
use std::{fmt, fs, io};

/// Why there is no disk at a folder.
#[derive(Clone, Copy, Debug, PartialEq, Eq)]
pub enum AtFault {
    /// The machine answered an error, or another disk holds the folder.
    Failed,
    /// Memory ran out.
    Memory,
}

impl fmt::Display for AtFault {
    fn fmt<W: fmt::Write>(&self, f: &mut fmt::Formatter<W>) -> fmt::Result {
        match self {
            AtFault::Failed => f.write_str("the disk failed"),
            AtFault::Memory => Memory.fmt(f),
        }
    }
}

impl Error for AtFault {}

impl From<io::Error> for AtFault {
    ghost use Rattle.std.specs.IoError.{error_kind};
    ghost use Rattle.std.specs.declared.io.ErrorKind.TheVariants.{OutOfMemory};
    ghost use Rattle.disk.specs.declared.file_disk.AtFault.TheVariants.{Memory as WantOfMemory};

    ghost from_gives = { λ error fault. (fault ≡ WantOfMemory) ↔ (error_kind error ≡ OutOfMemory) };

    fn from(error: io::Error) -> AtFault {
        match error.kind() {
            ErrorKind::OutOfMemory => AtFault::Memory,
            _ => AtFault::Failed,
        }
    }
}

/// A file that is held by one program at a time.
pub trait LockFile {
    /// Holds the file until it is dropped. Where another open of it is held, by this program or another, that is an
    /// error.
    fn hold(&self) -> io::Result<()>;
}

impl LockFile for fs::File {
    fn hold(&self) -> io::Result<()> {
        self.try_lock()?;
        Ok(())
    }
}

fn too_far() -> io::Error {
    io::Error::from(ErrorKind::InvalidInput)
}

// The length that the machine tells of a file.
fn length_in(told: &Metadata) -> io::Result<u64>
    ensures len { IfOk result (λ n. n ≡ metadata_len told.now) }
    ensures short { IfOk result (λ n. n < end_of_lengths) }
    ensures too_far { IsErr result ↔ (end_of_lengths ≤ metadata_len told.now) }
{
    let len = told.len();
    if fits(len, 0) {
        Ok(len)
    } else {
        Err(too_far())
    }
}

fn length_of<F: OpenFile>(file: &F) -> io::Result<u64>
    ensures { IfOk result (λ n. n < end_of_lengths) }
{
    length_in(&file.metadata()?)
}

fn read_from<F: Read + Seek + OpenFile>(file: &mut F, at: u64, into: &mut [u8]) -> io::Result<()> {
    if at > length_of(file)? {
        return Err(too_far());
    }
    file.seek(SeekFrom::Start(at))?;
    file.read_exact(into)
}

fn write_to<F: Write + Seek + OpenFile>(file: &mut F, at: u64, bytes: &[u8]) -> io::Result<()>
    ensures { OnOk result (at + length bytes.now < end_of_lengths) }
{
    if !fits(at, bytes.len() as u64) || at > length_of(file)? {
        return Err(too_far());
    }
    file.seek(SeekFrom::Start(at))?;
    file.write_all(bytes)
}

fn cut_at<F: OpenFile>(file: &F, to: u64) -> io::Result<()> {
    if to > length_of(file)? {
        return Err(too_far());
    }
    file.set_len(to)
}

#[derive(Drop)]
struct FileSet<F> {
    choice: F,
    left: F,
    right: F,
}

impl<F> FileSet<F> {
    fn get(&self, file: File) -> &F
        ensures { result.now ≡ file_in self.now file }
    {
        match file {
            File::Choice => &self.choice,
            File::Left => &self.left,
            File::Right => &self.right,
        }
    }
}

impl<F: Read + Write + Seek + OpenFile> FileSet<F> {
    fn read(&mut self, file: File, at: u64, into: &mut [u8]) -> io::Result<()>
        ensures { OthersAreSame file self.old self.new }
    {
        match file {
            File::Choice => read_from(&mut self.choice, at, into),
            File::Left => read_from(&mut self.left, at, into),
            File::Right => read_from(&mut self.right, at, into),
        }
    }

    fn write(&mut self, file: File, at: u64, bytes: &[u8]) -> io::Result<()>
        ensures short { OnOk result (at + length bytes.now < end_of_lengths) }
        ensures others { OthersAreSame file self.old self.new }
    {
        match file {
            File::Choice => write_to(&mut self.choice, at, bytes),
            File::Left => write_to(&mut self.left, at, bytes),
            File::Right => write_to(&mut self.right, at, bytes),
        }
    }
}

// Opens a file of the folder, and makes it empty where it is missing.
fn open<R: Files>(rt: &R, alloc: Global, folder: &str, name: &str) -> Result<R::File, AtFault> {
    let Ok(path) = format!(in alloc; "{folder}/{name}") else {
        return Err(AtFault::Memory);
    };
    let file = OpenOptions::new()
        .read(true)
        .write(true)
        .create(true)
        .open(rt, path.as_str())?;
    Ok(file)
}

fn sync_folder<R: Files>(rt: &R, alloc: Global, folder: &str, name: &str) -> Result<(), AtFault> {
    let Ok(path) = format!(in alloc; "{folder}/{name}") else {
        return Err(AtFault::Memory);
    };
    fs::open(rt, path.as_str())?.sync_all()?;
    Ok(())
}

// Makes the folder where it is missing, so that a stop leaves its name. Where that can't be had, a new one is removed.
fn make_folder<R: Files>(rt: &R, alloc: Global, folder: &str) -> Result<(), AtFault> {
    let is_new = !fs::exists(rt, folder)?;
    if is_new {
        fs::create_dir(rt, folder)?;
    }
    match sync_folder(rt, alloc, folder, "..") {
        // The folder above one that was there may be another's, and closed to this program.
        Err(AtFault::Failed) if !is_new => Ok(()),
        Err(fault) if is_new => {
            let _ = fs::remove_dir(rt, folder);
            Err(fault)
        }
        named => named,
    }
}

/// The files `choice`, `left` and `right` of a folder, which it holds: no other disk is at the folder then. It tells
/// nothing, and counts the machine's errors. Once a sync failed, each later one fails.
#[derive(Drop)]
pub struct FileDisk<R: Files> {
    files: FileSet<R::File>,
    clock: u64,
    faults: u64,
    // The machine may have dropped what wasn't synced, and tell of the next sync that it went well.
    sync_failed: bool,
}

impl<R: Files> FileDisk<R> {
    /// The disk of a folder. The files are made where they are missing, and so is the folder, in one that is there.
    pub fn at(rt: &R, alloc: Global, folder: &str) -> Result<Self, AtFault>
    where
        R::File: LockFile,
        ensures { IfOk result (λ d. (d.clock ≡ 0) × (d.faults ≡ 0) × (d.sync_failed ≡ false)) }
    {
        make_folder(rt, alloc, folder)?;
        let choice = open(rt, alloc, folder, "choice")?;
        choice.hold()?;
        let files = FileSet {
            choice,
            left: open(rt, alloc, folder, "left")?,
            right: open(rt, alloc, folder, "right")?,
        };
        // Only then does a stop leave the names of new files.
        sync_folder(rt, alloc, folder, ".")?;
        Ok(FileDisk {
            files,
            clock: 0,
            faults: 0,
            sync_failed: false,
        })
    }

    /// Raises the clock, unless it stands at its greatest value.
    pub fn pass(&mut self)
        ensures { self.new ≡ record self.old { clock = counted self.old.clock } }
    {
        self.clock = self.clock.saturating_add(1);
    }

    // Counts an error of the machine.
    fn told<T>(&mut self, done: io::Result<T>) -> Result<T, Failed>
        ensures value { IfOk result (λ value. done ≡ Ok value) }
        ensures error { OnErr result (IsErr done) }
        ensures same { self.new ≡ record self.old { faults = self.new.faults } }
        ensures counts { CountsFaults self.old.faults self.new.faults result }
        ensures spares { Spares (λ _. alone) (λ d. d.faults) self.old self.new (IsErr result) }
    {
        match done {
            Ok(value) => Ok(value),
            Err(_) => {
                self.faults = self.faults.saturating_add(1);
                Err(Failed)
            }
        }
    }

    // Raises the clock for a call that may change a file.
    fn tick(&mut self) -> Result<(), Failed>
        ensures same { self.new ≡ record self.old { clock = counted self.old.clock; faults = self.new.faults } }
        ensures end { OnErr result (self.old.clock ≡ 2 ^ 64 - 1) }
        ensures clock { Ticks self.old.clock self.new.clock result }
        ensures counts { CountsFaults self.old.faults self.new.faults result }
        ensures spares { Spares (λ _. alone) (λ d. d.faults) self.old self.new (IsErr result) }
    {
        if self.clock == u64::MAX {
            self.faults = self.faults.saturating_add(1);
            return Err(Failed);
        }
        self.clock += 1;
        Ok(())
    }

    // Syncs a file, unless a sync failed before.
    fn try_sync(&mut self, file: File) -> io::Result<()>
        ensures same { self.new ≡ record self.old { sync_failed = self.new.sync_failed } }
        ensures failed { OnErr result (IsTrue self.new.sync_failed) }
        ensures fine { OnOk result ((self.old.sync_failed ≡ false) × (self.new.sync_failed ≡ false)) }
    {
        if self.sync_failed {
            return Err(io::Error::from(ErrorKind::Other));
        }
        let done = self.files.get(file).sync_data();
        self.sync_failed = done.is_err();
        done
    }
}

impl<R: Files> Disk for FileDisk<R> {
    ghost faults = { λ d. d.faults };

    ghost clock = { λ d. d.clock };

    ghost tells = { ⊥ };

    ghost held = { λ _ _. [] };

    ghost pending = { λ _ _. resting [] };

    ghost may_leave = { λ _ _ _. ⊥ };

    ghost beside = { λ _. alone };

    ghost images_now = { λ d images told now. absurd told };

    ghost held_now = { λ d told. absurd told };

    fn len(&mut self, file: File) -> Result<u64, Failed>
        ensures short { IfOk result (λ n. n < end_of_lengths) }
        ensures clock { self.new.clock ≡ self.old.clock }
        ensures spares { Spares (λ _. alone) (λ d. d.faults) self.old self.new (IsErr result) }
        ensures counts { CountsFaults self.old.faults self.new.faults result }
        ensures same { self.new ≡ record self.old { faults = self.new.faults } }
    {
        let len = length_of(self.files.get(file));
        self.told(len)
    }

    fn read_at(&mut self, file: File, at: u64, into: &mut [u8]) -> Result<(), Failed>
        ensures clock { self.new.clock ≡ self.old.clock }
        ensures spares { Spares (λ _. alone) (λ d. d.faults) self.old self.new (IsErr result) }
        ensures counts { CountsFaults self.old.faults self.new.faults result }
        ensures others { OthersAreSame file self.old.files self.new.files }
        ensures same { self.new ≡ record self.old { files = self.new.files; faults = self.new.faults } }
    {
        let done = self.files.read(file, at, into);
        self.told(done)
    }

    fn write_at(&mut self, file: File, at: u64, bytes: &[u8]) -> Result<(), Failed>
        ensures short { OnOk result (at + length bytes.now < end_of_lengths) }
        ensures clock { Ticks self.old.clock self.new.clock result }
        ensures spares { Spares (λ _. alone) (λ d. d.faults) self.old self.new (IsErr result) }
        ensures counts { CountsFaults self.old.faults self.new.faults result }
        ensures others { OthersAreSame file self.old.files self.new.files }
        ensures trust { self.new.sync_failed ≡ self.old.sync_failed }
    {
        self.tick()?;
        let done = self.files.write(file, at, bytes);
        self.told(done)
    }

    fn cut(&mut self, file: File, to: u64) -> Result<(), Failed>
        ensures clock { Ticks self.old.clock self.new.clock result }
        ensures spares { Spares (λ _. alone) (λ d. d.faults) self.old self.new (IsErr result) }
        ensures counts { CountsFaults self.old.faults self.new.faults result }
        ensures files { self.new.files ≡ self.old.files }
        ensures trust { self.new.sync_failed ≡ self.old.sync_failed }
    {
        self.tick()?;
        let done = cut_at(self.files.get(file), to);
        self.told(done)
    }

    fn sync(&mut self, file: File) -> Result<(), Failed>
        ensures clock { Ticks self.old.clock self.new.clock result }
        ensures spares { Spares (λ _. alone) (λ d. d.faults) self.old self.new (IsErr result) }
        ensures counts { CountsFaults self.old.faults self.new.faults result }
        ensures files { self.new.files ≡ self.old.files }

        // A failed sync is never trusted again.
        ensures fine { OnOk result ((self.old.sync_failed ≡ false) × (self.new.sync_failed ≡ false)) }
        ensures failed { OnErr result (IsTrue self.new.sync_failed ⊎ (self.old.clock ≡ 2 ^ 64 - 1)) }
    {
        self.tick()?;
        let done = self.try_sync(file);
        self.told(done)
    }
}
