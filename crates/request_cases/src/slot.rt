//! The server of the cases, and what its disk holds.
use crate::servers::{NoServer, Server, empty_disk, started};
use api_requests::StartFault;
use basis::Memory;
use disk::{File, MemDisk};
use http_front::{Reply, Request};
use object_journal::Key;
use object_store::{Item, Store, open_store};
use schemas::Accepted;
use std::alloc::Global;

/// The place of the server, while there is one.
#[derive(Debug, Drop)]
pub struct Slot {
    pub server: Option<Server>,
}

/// The reply to the request. A server that has none is gone.
pub fn replied(alloc: Global, slot: &mut Slot, request: &Request) -> Result<Reply, Memory> {
    let Some(server) = slot.server.take() else {
        return Err(Memory);
    };
    match server.replied(alloc, request) {
        Ok((server, reply)) => {
            slot.server = Some(server);
            Ok(reply)
        }
        Err(_) => Err(Memory),
    }
}

/// The disk of the server as it is left; an empty one where there is no server.
fn disk_of(alloc: Global, slot: &Slot) -> Result<MemDisk, Memory> {
    match &slot.server {
        Some(server) => server.disk(alloc),
        None => empty_disk(alloc),
    }
}

fn unreadable(alloc: Global, key: &Key, version: &str, number: u16) -> Result<String, Memory> {
    let (group, resource) = (key.group.as_str(), key.resource.as_str());
    let (namespace, name) = (key.namespace.as_str(), key.name.as_str());
    Ok(format!(in alloc;
        "{group}/{resource} {namespace}/{name} in {version}: not readable in 1.{number}"
    )?)
}

fn refused(alloc: Global, fault: StartFault) -> Result<String, Memory> {
    match fault {
        StartFault::Undecodable {
            key,
            version,
            minor,
        } => unreadable(alloc, &key, version.as_str(), minor.number()),
        StartFault::Memory => Err(Memory),
    }
}

/// Puts a server over what the disk holds in the place of the old one. Where there is none, the old one stays.
fn renewed(
    alloc: Global,
    accepted: &Accepted,
    slot: &mut Slot,
    disk: MemDisk,
    words: &str,
) -> Result<String, Memory> {
    match started(alloc, accepted, disk, words) {
        Ok(server) => {
            slot.server = Some(server);
            Ok(String::from_str(alloc, "a new server")?)
        }
        Err(NoServer::Flags) => Ok(String::from_str(alloc, "no such server")?),
        Err(NoServer::Store(fault)) => refused(alloc, fault),
        Err(NoServer::Memory) => Err(Memory),
    }
}

/// A server over an empty disk.
pub fn anew(
    alloc: Global,
    accepted: &Accepted,
    slot: &mut Slot,
    words: &str,
) -> Result<String, Memory> {
    let disk = empty_disk(alloc)?;
    renewed(alloc, accepted, slot, disk, words)
}

/// A server over what the old one left.
pub fn again(
    alloc: Global,
    accepted: &Accepted,
    slot: &mut Slot,
    words: &str,
) -> Result<String, Memory> {
    let disk = disk_of(alloc, slot)?;
    renewed(alloc, accepted, slot, disk, words)
}

/// How many bytes the file of the journal has.
pub fn length(alloc: Global, slot: &Slot) -> Result<String, Memory> {
    let disk = disk_of(alloc, slot)?;
    let count = disk.held_bytes(File::Left).len();
    Ok(format!(in alloc; "{count} bytes")?)
}

fn note_record(alloc: Global, text: &mut String, item: &Item) -> Result<(), Memory> {
    let (resource, namespace) = (item.key.resource.as_str(), item.key.namespace.as_str());
    let name = item.key.name.as_str();
    let (created, revision) = (item.created, item.revision);
    let body = str::from_utf8(item.body.bytes()).unwrap_or("not UTF-8");
    let record = format!(in alloc; "|{resource} {namespace}/{name} {created} {revision} {body}")?;
    text.push_str(record.as_str())?;
    Ok(())
}

fn note_records(alloc: Global, store: &Store) -> Result<String, Memory> {
    let revision = store.revision();
    let mut text = format!(in alloc; "revision {revision}")?;
    for item in store.items() {
        match note_record(alloc, &mut text, item) {
            Ok(()) => {}
            Err(memory) => return Err(memory),
        }
    }
    Ok(text)
}

/// The records that the disk holds.
pub fn records(alloc: Global, slot: &Slot) -> Result<String, Memory> {
    let mut disk = disk_of(alloc, slot)?;
    match open_store(alloc, &mut disk) {
        Ok(store) => note_records(alloc, &store),
        Err(_) => Err(Memory),
    }
}
