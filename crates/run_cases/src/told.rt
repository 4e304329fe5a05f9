//! What is told of a world when the case has ended.

use crate::case::{Case, setting};
use crate::events::hex;
use basis::Memory;
use disk::{File, MemDisk};
use object_store::{Item, Store, open_store};
use std::alloc::Global;
use world::{MemWorld, Sent};

/// The stops that are tried at every moment.
const PICKS: [u64; 4] = [0, 1, 79, 255];

/// The length of a header and a gate.
const SHORT: usize = 17;

/// The text of the bytes, in which bars stand for the ends of lines of a head, and `\n` for other line feeds.
fn shown(alloc: Global, bytes: &[u8]) -> Result<String, Memory> {
    let text = str::from_utf8(bytes).unwrap_or("not UTF-8");
    let text = text.replace(alloc, "\r\n", "|")?;
    Ok(text.replace(alloc, "\n", "\\n")?)
}

fn note_send(alloc: Global, told: &mut String, sent: &Sent) -> Result<(), Memory> {
    let text = shown(alloc, sent.bytes.bytes())?;
    let last = if sent.last { " last" } else { "" };
    let went = if sent.went { "" } else { " not sent" };
    let (c, seen, at) = (sent.c, sent.seen, sent.at);
    let line = format!(in alloc; "> {c} seen {seen} at {at}{last}{went} {text}\n")?;
    told.push_str(line.as_str())?;
    Ok(())
}

fn note_sends(alloc: Global, told: &mut String, sends: &[Sent]) -> Result<(), Memory> {
    for sent in sends {
        match note_send(alloc, told, sent) {
            Ok(()) => {}
            Err(_) => return Err(Memory),
        }
    }
    Ok(())
}

fn note_record(alloc: Global, told: &mut String, item: &Item) -> Result<(), Memory> {
    let (resource, namespace) = (item.key.resource.as_str(), item.key.namespace.as_str());
    let (name, created, revision) = (item.key.name.as_str(), item.created, item.revision);
    let body = str::from_utf8(item.body.bytes()).unwrap_or("not UTF-8");
    let line = format!(in alloc; "= {resource} {namespace}/{name} {created} {revision} {body}\n")?;
    told.push_str(line.as_str())?;
    Ok(())
}

fn note_records(alloc: Global, told: &mut String, store: &Store) -> Result<(), Memory> {
    let (revision, count) = (store.revision(), store.items().len());
    let line = format!(in alloc; "revision {revision}, {count} records\n")?;
    told.push_str(line.as_str())?;
    for item in store.items() {
        match note_record(alloc, told, item) {
            Ok(()) => {}
            Err(_) => return Err(Memory),
        }
    }
    Ok(())
}

/// Whether the file of records is left as it was at first.
fn is_unchanged(disk: &MemDisk, left: &[u8]) -> bool {
    match disk.after_stop(0, 0) {
        Ok(first) => first.held_bytes(File::Left) == left,
        Err(_) => false,
    }
}

/// A short file is told in hexadecimal digits, a longer one by its length.
fn file_text(alloc: Global, left: &[u8]) -> Result<String, Memory> {
    if left.len() <= SHORT {
        return hex(alloc, left);
    }
    let count = left.len();
    Ok(format!(in alloc; "{count} bytes")?)
}

fn note_file(alloc: Global, told: &mut String, disk: &MemDisk, left: &[u8]) -> Result<(), Memory> {
    let text = file_text(alloc, left)?;
    let word = if is_unchanged(disk, left) {
        ", as before"
    } else {
        ""
    };
    let line = format!(in alloc; "left [{text}]{word}, ")?;
    told.push_str(line.as_str())?;
    Ok(())
}

fn note_opened(alloc: Global, told: &mut String, disk: &mut MemDisk) -> Result<(), Memory> {
    match open_store(alloc, disk) {
        Ok(store) => note_records(alloc, told, &store),
        Err(_) => Ok(told.push_str("no store\n")?),
    }
}

/// What a stop behind all that was done leaves.
fn note_store(alloc: Global, told: &mut String, disk: &MemDisk) -> Result<(), Memory> {
    let mut stopped = disk.after_stop(disk.moment(), 0)?;
    note_file(alloc, told, disk, stopped.held_bytes(File::Left))?;
    note_opened(alloc, told, &mut stopped)
}

/// The revision of the store that a stop leaves.
fn revision_left(alloc: Global, disk: &MemDisk, t: u64, pick: u64) -> Option<u64> {
    if disk.moment() < t {
        return None;
    }
    let mut stopped = disk.after_stop(t, pick).ok()?;
    let store = open_store(alloc, &mut stopped).ok()?;
    Some(store.revision())
}

fn note_revision(
    alloc: Global,
    told: &mut String,
    disk: &MemDisk,
    t: u64,
    pick: u64,
) -> Result<(), Memory> {
    let word = match revision_left(alloc, disk, t, pick) {
        Some(revision) => format!(in alloc; " {revision}")?,
        None => String::from_str(alloc, " none")?,
    };
    told.push_str(word.as_str())?;
    Ok(())
}

fn note_revisions(
    alloc: Global,
    told: &mut String,
    disk: &MemDisk,
    pick: u64,
) -> Result<(), Memory> {
    for t in 0..disk.moment().saturating_add(1) {
        match note_revision(alloc, told, disk, t, pick) {
            Ok(()) => {}
            Err(_) => return Err(Memory),
        }
    }
    Ok(())
}

fn note_pick(alloc: Global, told: &mut String, disk: &MemDisk, pick: u64) -> Result<(), Memory> {
    let head = format!(in alloc; "pick {pick}:")?;
    told.push_str(head.as_str())?;
    note_revisions(alloc, told, disk, pick)?;
    told.push_str("\n")?;
    Ok(())
}

fn note_stops(alloc: Global, told: &mut String, disk: &MemDisk) -> Result<(), Memory> {
    for pick in PICKS {
        match note_pick(alloc, told, disk, pick) {
            Ok(()) => {}
            Err(_) => return Err(Memory),
        }
    }
    Ok(())
}

/// What was sent, how the case ended, what it leaves, and, where the case asks for it, the revisions that a stop at each of
/// its moments leaves.
pub fn of_world(
    alloc: Global,
    case: Case<'_>,
    line: &str,
    world: &MemWorld,
) -> Result<String, Memory> {
    let mut told = String::new(alloc);
    note_sends(alloc, &mut told, world.sends())?;
    told.push_str(line)?;
    note_store(alloc, &mut told, world.disk())?;
    if setting(case.settings, "stops").is_some() {
        note_stops(alloc, &mut told, world.disk())?;
    }
    Ok(told)
}
