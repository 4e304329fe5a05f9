//! Cases of journals and stores on a disk in memory.
ghost use Rattle.std.specs.Prelude.{◌≡◌, false, IsTrue, List, IfSome};
ghost use Rattle.disk.specs.MemDisk.{mem_held, mem_pending};
ghost use Rattle.object_journal.specs.declared.entry.Entry.{Entry as EntryS};
ghost use Rattle.object_journal.specs.Payload.{HasShortTexts};
ghost use Rattle.object_store.specs.Stores.{HasEntries};

use crate::bytes::{BODY, blanks, file_in, file_of_a_put};
use crate::calls::{number_at, push};
use crate::memory::disk_of;
use basis::Memory;
use disk::{File, MemDisk};
use minor_version::{Blob, Text};
use object_journal::{Change, Entries, Journal, Key, OpenFault, open_journal};
use object_store::{ReadyFault, Store, open_store};
use std::alloc::Global;

fn name_of(fault: &OpenFault) -> &'static str {
    match fault {
        OpenFault::NotAStore {
            file: File::Left,
            ..
        } => "left",
        OpenFault::NotAStore { .. } => "another file",
        OpenFault::Disk => "the disk failed",
        OpenFault::Memory => "out of memory",
    }
}

fn place_of(fault: &OpenFault) -> u64 {
    match fault {
        OpenFault::NotAStore { at, .. } => *at,
        _ => 0,
    }
}

// How long the body of the first entry is, where it is a front of that of a widget.
fn first_body(entries: &Entries) -> usize {
    match entries.items().first() {
        Some(entry) => match &entry.change {
            Change::Put { body, .. } => match BODY.as_bytes().strip_prefix(body.bytes()) {
                Some(_) => body.bytes().len(),
                None => 0,
            },
            Change::Removal => 0,
        },
        None => 0,
    }
}

fn told_of_journal(alloc: Global, journal: &Journal, entries: &Entries) -> Result<String, Memory> {
    let count = entries.items().len();
    let revision = journal.revision();
    let body = first_body(entries);
    Ok(format!(in alloc; "{count} at {revision}, first body of {body}")?)
}

fn told_of_fault(alloc: Global, fault: &OpenFault) -> Result<String, Memory> {
    let name = name_of(fault);
    let at = place_of(fault);
    Ok(format!(in alloc; "{name} at {at}")?)
}

fn opened(alloc: Global, disk: &mut MemDisk) -> Result<String, Memory> {
    match open_journal(alloc, disk) {
        Ok((journal, entries)) => told_of_journal(alloc, &journal, &entries),
        Err(fault) => told_of_fault(alloc, &fault),
    }
}

fn kind_of(bytes: &[u8], old: &[u8]) -> &'static str {
    if bytes == old {
        return "as it was";
    }
    if bytes == b"KEMUJNL1\0\0\0\0\0\0\0\0\0".as_slice() {
        "mended"
    } else if bytes == file_of_a_put() {
        "the file of a put"
    } else {
        "other bytes"
    }
}

// What is answered, and what is left of a file that was this.
fn with_left(alloc: Global, answer: &str, disk: &MemDisk, old: &[u8]) -> Result<String, Memory> {
    let kind = kind_of(disk.held_bytes(File::Left), old);
    Ok(format!(in alloc; "{answer}; {kind}")?)
}

fn opened_and_left(alloc: Global, disk: &mut MemDisk, old: &[u8]) -> Result<String, Memory> {
    match opened(alloc, disk) {
        Ok(answer) => with_left(alloc, answer.as_str(), disk, old),
        Err(memory) => Err(memory),
    }
}

fn journal_of(alloc: Global, fails: &str, file: &[u8]) -> Result<String, Memory> {
    match disk_of(alloc, b"", file, &[number_at(fails, 0)]) {
        Ok(mut disk) => opened_and_left(alloc, &mut disk, file),
        Err(memory) => Err(memory),
    }
}

/// What an opening of the journal gives where the call with this number fails, and what is left of the file.
pub fn journal(alloc: Global, case: &str) -> Result<String, Memory> {
    let (fails, word) = case.split_once(' ').unwrap_or((case, ""));
    match file_in(alloc, word) {
        Ok(file) => journal_of(alloc, fails, file.as_slice()),
        Err(memory) => Err(memory),
    }
}

fn has_short_texts(key: &Key) -> bool
    ensures { IsTrue result → HasShortTexts key.now }
{
    key.group.bytes().len() <= 65535
        && key.resource.bytes().len() <= 65535
        && key.namespace.bytes().len() <= 65535
        && key.name.bytes().len() <= 65535
}

fn texts(alloc: Global, one: &str, other: &str) -> Result<(Text, Text), Memory> {
    let one = Text::from_str(alloc, one)?;
    let other = Text::from_str(alloc, other)?;
    Ok((one, other))
}

fn key_of(alloc: Global, name: &str) -> Result<Key, Memory> {
    let (group, resource) = texts(alloc, "demo.example", "widgets")?;
    let (namespace, name) = texts(alloc, "default", name)?;
    Ok(Key {
        group,
        resource,
        namespace,
        name,
    })
}

fn widget(alloc: Global, name: &str) -> Option<Key>
    ensures { IfSome result HasShortTexts }
{
    let Ok(key) = key_of(alloc, name) else {
        return None;
    };
    if has_short_texts(&key) {
        Some(key)
    } else {
        None
    }
}

fn put_of(alloc: Global, store: &mut Store, disk: &mut MemDisk, key: Key, body: Blob) -> bool
    requires stands { (entries : List EntryS) × HasEntries (Unit {0}) (mem_held disk.old) (mem_pending disk.old) store.old entries }
    requires short { HasShortTexts key }
    ensures { IsTrue result → (entries : List EntryS) × HasEntries (Unit {0}) (mem_held disk.new) (mem_pending disk.new) store.new entries }
{
    let Ok(ready) = store.ready_put(alloc, key, body) else {
        return false;
    };
    store.commit(ready, disk).is_ok()
}

// Puts a widget. Tells whether the disk did it.
fn put(alloc: Global, store: &mut Store, disk: &mut MemDisk, name: &str) -> bool
    requires { (entries : List EntryS) × HasEntries (Unit {0}) (mem_held disk.old) (mem_pending disk.old) store.old entries }
    ensures { IsTrue result → (entries : List EntryS) × HasEntries (Unit {0}) (mem_held disk.new) (mem_pending disk.new) store.new entries }
{
    let Some(key) = widget(alloc, name) else {
        return false;
    };
    match Blob::copy(alloc, BODY.as_bytes()) {
        Ok(body) => put_of(alloc, store, disk, key, body),
        Err(_) => false,
    }
}

// Removes a widget that is held. Tells whether the disk did it.
fn remove(alloc: Global, store: &mut Store, disk: &mut MemDisk, name: &str) -> bool
    requires { (entries : List EntryS) × HasEntries (Unit {0}) (mem_held disk.old) (mem_pending disk.old) store.old entries }
    ensures { IsTrue result → (entries : List EntryS) × HasEntries (Unit {0}) (mem_held disk.new) (mem_pending disk.new) store.new entries }
{
    let Some(key) = widget(alloc, name) else {
        return false;
    };
    if store.get(&key).is_none() {
        return false;
    }
    let Ok(ready) = store.ready_removal(alloc, key) else {
        return false;
    };
    store.commit(ready, disk).is_ok()
}

// Whether the store shows the put of one widget.
fn shows(alloc: Global, store: &Store, name: &str) -> bool {
    match widget(alloc, name) {
        Some(key) => match store.get(&key) {
            Some(item) => item.created == 1 && item.body.bytes() == BODY.as_bytes(),
            None => false,
        },
        None => false,
    }
}

fn told_of(alloc: Global, store: &Store, is_done: bool) -> Result<String, Memory> {
    let done = if is_done { "done" } else { "failed" };
    let shown = if shows(alloc, store, "a") {
        "shown"
    } else {
        "not shown"
    };
    let ended = if store.has_ended() { ", ended" } else { "" };
    let count = store.items().len();
    let revision = store.revision();
    Ok(format!(in alloc; "{done}, {shown}, {count} at {revision}{ended}")?)
}

fn put_and_tell(alloc: Global, store: &mut Store, disk: &mut MemDisk) -> Result<String, Memory>
    requires { (entries : List EntryS) × HasEntries (Unit {0}) (mem_held disk.old) (mem_pending disk.old) store.old entries }
{
    let is_done = put(alloc, store, disk, "a");
    told_of(alloc, store, is_done)
}

fn open_and_put(alloc: Global, disk: &mut MemDisk) -> Result<String, Memory> {
    match open_store(alloc, disk) {
        Ok(mut store) => put_and_tell(alloc, &mut store, disk),
        Err(fault) => Ok(String::from_str(alloc, name_of(&fault))?),
    }
}

fn put_and_left(alloc: Global, disk: &mut MemDisk) -> Result<String, Memory> {
    match open_and_put(alloc, disk) {
        Ok(answer) => with_left(alloc, answer.as_str(), disk, b""),
        Err(memory) => Err(memory),
    }
}

/// What becomes of a put into a fresh store where the call with this number fails.
pub fn put_answer(alloc: Global, case: &str) -> Result<String, Memory> {
    match disk_of(alloc, b"", b"", &[number_at(case, 0)]) {
        Ok(mut disk) => put_and_left(alloc, &mut disk),
        Err(memory) => Err(memory),
    }
}

fn records(alloc: Global, disk: &mut MemDisk) -> &'static str {
    match open_store(alloc, disk) {
        Ok(store) => match store.items().len() {
            0 => "0",
            1 => "1",
            _ => "many",
        },
        Err(_) => "none",
    }
}

// How many records a stop leaves.
fn records_left(alloc: Global, disk: &MemDisk, t: u64, pick: u64) -> &'static str {
    if disk.moment() < t {
        return "none";
    }
    match disk.after_stop(t, pick) {
        Ok(mut stopped) => records(alloc, &mut stopped),
        Err(_) => "none",
    }
}

fn push_records_left(
    alloc: Global,
    disk: &MemDisk,
    pick: u64,
    text: &mut String,
) -> Result<(), Memory> {
    for t in 0..disk.moment().saturating_add(1) {
        match push(text, records_left(alloc, disk, t, pick)) {
            Ok(()) => {}
            Err(memory) => return Err(memory),
        }
    }
    Ok(())
}

fn records_after(alloc: Global, disk: &MemDisk, pick: u64) -> Result<String, Memory> {
    let mut text = String::new(alloc);
    match push_records_left(alloc, disk, pick, &mut text) {
        Ok(()) => Ok(text),
        Err(memory) => Err(memory),
    }
}

fn records_of_put(alloc: Global, disk: &mut MemDisk, pick: u64) -> Result<String, Memory> {
    match open_and_put(alloc, disk) {
        Ok(_) => records_after(alloc, disk, pick),
        Err(memory) => Err(memory),
    }
}

/// How many records a stop leaves at each moment of a put into a fresh store, for a pick, where the call with this number
/// fails: a digit for each moment.
pub fn records_after_stops(alloc: Global, case: &str) -> Result<String, Memory> {
    let (pick, fails) = case.split_once(' ').unwrap_or((case, ""));
    match disk_of(alloc, b"", b"", &[number_at(fails, 0)]) {
        Ok(mut disk) => records_of_put(alloc, &mut disk, number_at(pick, 0)),
        Err(memory) => Err(memory),
    }
}

fn ready_answer(alloc: Global, store: &mut Store, body: Blob) -> &'static str
    requires { store.old.journal.ended ≡ false }
{
    let Some(key) = widget(alloc, "new") else {
        return "no key";
    };
    match store.ready_put(alloc, key, body) {
        Ok(_) => "ready",
        Err(ReadyFault::Full) => "full",
        Err(ReadyFault::TooLong) => "too long",
        Err(ReadyFault::Memory) => "out of memory",
    }
}

fn ready_on(alloc: Global, disk: &mut MemDisk, body: Blob) -> &'static str {
    match open_store(alloc, disk) {
        Ok(mut store) => ready_answer(alloc, &mut store, body),
        Err(fault) => name_of(&fault),
    }
}

fn body_of(alloc: Global, count: usize) -> Result<Blob, Memory> {
    match blanks(alloc, count) {
        Ok(bytes) => Blob::copy(alloc, bytes.as_slice()),
        Err(memory) => Err(memory),
    }
}

fn ready_in(alloc: Global, file: &[u8], body: Blob) -> Result<String, Memory> {
    match disk_of(alloc, b"", file, &[]) {
        Ok(mut disk) => Ok(String::from_str(alloc, ready_on(alloc, &mut disk, body))?),
        Err(memory) => Err(memory),
    }
}

fn ready_with(alloc: Global, file: &[u8], count: &str) -> Result<String, Memory> {
    match body_of(alloc, count.parse::<usize>().unwrap_or(0)) {
        Ok(body) => ready_in(alloc, file, body),
        Err(memory) => Err(memory),
    }
}

/// Whether a put of so many blanks is ready in the store of the file.
pub fn refusal_answer(alloc: Global, case: &str) -> Result<String, Memory> {
    let (word, count) = case.split_once(' ').unwrap_or((case, ""));
    match file_in(alloc, word) {
        Ok(file) => ready_with(alloc, file.as_slice(), count),
        Err(memory) => Err(memory),
    }
}

// Puts a held key, removes another and puts a new one. Tells whether the disk did all.
fn put_over_and_anew(alloc: Global, store: &mut Store, disk: &mut MemDisk) -> bool
    requires { (entries : List EntryS) × HasEntries (Unit {0}) (mem_held disk.old) (mem_pending disk.old) store.old entries }
{
    if !put(alloc, store, disk, "00") {
        return false;
    }
    if !remove(alloc, store, disk, "01") {
        return false;
    }
    put(alloc, store, disk, "new")
}

fn change_and_tell(alloc: Global, store: &mut Store, disk: &mut MemDisk) -> Result<String, Memory>
    requires { (entries : List EntryS) × HasEntries (Unit {0}) (mem_held disk.old) (mem_pending disk.old) store.old entries }
{
    let is_done = put_over_and_anew(alloc, store, disk);
    told_of(alloc, store, is_done)
}

fn changes_on(alloc: Global, disk: &mut MemDisk) -> Result<String, Memory> {
    match open_store(alloc, disk) {
        Ok(mut store) => change_and_tell(alloc, &mut store, disk),
        Err(fault) => Ok(String::from_str(alloc, name_of(&fault))?),
    }
}

fn changes_in(alloc: Global, file: &[u8]) -> Result<String, Memory> {
    match disk_of(alloc, b"", file, &[]) {
        Ok(mut disk) => changes_on(alloc, &mut disk),
        Err(memory) => Err(memory),
    }
}

/// What the store of the file holds after a put of a held key, a removal and a put of a new key.
pub fn changes_answer(alloc: Global, case: &str) -> Result<String, Memory> {
    match file_in(alloc, case) {
        Ok(file) => changes_in(alloc, file.as_slice()),
        Err(memory) => Err(memory),
    }
}
