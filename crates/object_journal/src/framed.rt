ghost use Rattle.std.specs.Prelude.{◌≡◌, ◌↔◌, ◌<◌, ◌≤◌, ◌^◌, ◌++◌, [], ◌∷◌, length, IfOk, OnOk, IsErrOf};
ghost use Rattle.object_journal.specs.Payload.{HasShortTexts, longest_payload, payload_of, frame_bytes, tag_of, created_of, number_fields, key_fields, text_field, body_of};
ghost use Rattle.object_journal.specs.Frames.{IsFrame, closed_gate};

use crate::entry::{Change, Entry};
use crate::key::Key;
use basis::Memory;
use std::alloc::Global;
use std::error::Error;
use std::fmt;
use std::marker::Model;

pub(crate) const LONGEST_PAYLOAD: usize = 1_048_576;

/// Any byte but that of an open gate closes one. The product writes this one.
pub(crate) const CLOSED_GATE: u8 = 0;

/// Why an entry has no frame.
#[derive(Clone, Copy, Debug, PartialEq, Eq)]
pub enum FrameFault {
    /// The payload would have more than 1,048,576 bytes.
    TooLong,
    /// Memory ran out.
    Memory,
}

impl fmt::Display for FrameFault {
    fn fmt<W: fmt::Write>(&self, f: &mut fmt::Formatter<W>) -> fmt::Result {
        match self {
            FrameFault::TooLong => f.write_str("payload too long"),
            FrameFault::Memory => Memory.fmt(f),
        }
    }
}

impl Error for FrameFault {}

/// The bytes of a record, seen as its entry.
#[derive(Debug, Drop)]
pub struct Framed {
    // The length of the payload, the payload, and a closed gate, so that one write puts all of it.
    bytes: Vec<u8>,
    revision: u64,
}

impl Model for Framed {
    ghost use Rattle.std.specs.Prelude.{◌≡◌};
    ghost use Rattle.object_journal.specs.declared.entry.Entry.{Entry};
    ghost use Rattle.object_journal.specs.Frames.{IsFrame, entry_of};

    ghost Value = { Entry };

    ghost view = { λ f. entry_of f.bytes.items };

    ghost invariant = { λ f. record {
      frame : IsFrame (entry_of f.bytes.items) f.bytes.items;
      revision : f.revision ≡ (entry_of f.bytes.items).revision;
    } };
}

impl Framed {
    // The length of the payload, the payload, and a closed gate.
    pub(crate) fn bytes(&self) -> &[u8]
        ensures { IsFrame self.now result.now }
    {
        self.bytes.as_slice()
    }

    pub(crate) fn revision(&self) -> u64
        ensures { result ≡ self.now.revision }
    {
        self.revision
    }
}

fn change_length(change: &Change) -> usize
    ensures length { result ≡ length (body_of change.now) }
    ensures small { result < 2 ^ 63 }
{
    match change {
        Change::Put { body, .. } => body.bytes().len(),
        Change::Removal => 0,
    }
}

fn payload_length(entry: &Entry) -> usize
    requires { HasShortTexts entry.now.key }
    ensures { result ≡ length (payload_of entry.now) }
{
    let key = &entry.key;
    let texts = key.group.bytes().len()
        + key.resource.bytes().len()
        + key.namespace.bytes().len()
        + key.name.bytes().len();
    25 + texts + change_length(&entry.change)
}

fn put_text(bytes: &mut Vec<u8>, text: &[u8]) -> Result<(), Memory>
    requires { length text.now ≤ 65535 }
    ensures { OnOk result (bytes.new.items ≡ bytes.old.items ++ text_field text.now) }
{
    bytes.extend_from_slice(&(text.len() as u16).to_be_bytes())?;
    bytes.extend_from_slice(text)?;
    Ok(())
}

fn put_key(bytes: &mut Vec<u8>, key: &Key) -> Result<(), Memory>
    requires { HasShortTexts key.now }
    ensures { OnOk result (bytes.new.items ≡ bytes.old.items ++ key_fields key.now) }
{
    put_text(bytes, key.group.bytes())?;
    put_text(bytes, key.resource.bytes())?;
    put_text(bytes, key.namespace.bytes())?;
    put_text(bytes, key.name.bytes())
}

fn tag(change: &Change) -> u8
    ensures { result ≡ tag_of change.now }
{
    match change {
        Change::Put { .. } => 0,
        Change::Removal => 1,
    }
}

fn created(change: &Change) -> u64
    ensures { result ≡ created_of change.now }
{
    match change {
        Change::Put { created, .. } => *created,
        Change::Removal => 0,
    }
}

fn put_numbers(bytes: &mut Vec<u8>, tag: u8, revision: u64, created: u64) -> Result<(), Memory>
    ensures { OnOk result (bytes.new.items ≡ bytes.old.items ++ number_fields tag revision created) }
{
    bytes.push(tag)?;
    bytes.extend_from_slice(&revision.to_be_bytes())?;
    bytes.extend_from_slice(&created.to_be_bytes())?;
    Ok(())
}

fn put_body(bytes: &mut Vec<u8>, change: &Change) -> Result<(), Memory>
    ensures { OnOk result (bytes.new.items ≡ bytes.old.items ++ body_of change.now) }
{
    match change {
        Change::Put { body, .. } => bytes.extend_from_slice(body.bytes())?,
        Change::Removal => {}
    }
    Ok(())
}

fn frame_of(alloc: Global, entry: &Entry, size: u32) -> Result<Vec<u8>, Memory>
    requires short { HasShortTexts entry.now.key }
    requires size { size ≡ length (payload_of entry.now) }
    ensures frame { IfOk result (λ v. v.items ≡ frame_bytes entry.now ++ closed_gate ∷ []) }
    ensures fits { OnOk result ((entry.now.revision < 2 ^ 64)
        × (created_of entry.now.change < 2 ^ 64)) }
{
    let mut bytes = Vec::with_capacity(alloc, 5 + size as usize)?;
    bytes.extend_from_slice(&size.to_be_bytes())?;
    let created = created(&entry.change);
    put_numbers(&mut bytes, tag(&entry.change), entry.revision, created)?;
    put_key(&mut bytes, &entry.key)?;
    put_body(&mut bytes, &entry.change)?;
    bytes.push(CLOSED_GATE)?;
    Ok(bytes)
}

/// The record of the entry. Each text of the key has at most 65,535 bytes. `TooLong` comes exactly where its payload has
/// more than 1,048,576 bytes.
pub fn frame(alloc: Global, entry: &Entry) -> Result<Framed, FrameFault>
    requires { HasShortTexts entry.now.key }
    ensures ok { IfOk result (λ f. f ≡ entry.now) }
    ensures too_long { IsErrOf result FrameFault.TooLong
        ↔ (longest_payload < length (payload_of entry.now)) }
{
    let size = payload_length(entry);
    if size > LONGEST_PAYLOAD {
        return Err(FrameFault::TooLong);
    }
    match frame_of(alloc, entry, size as u32) {
        Ok(bytes) => Ok(Framed {
            bytes,
            revision: entry.revision,
        }),
        Err(_) => Err(FrameFault::Memory),
    }
}
