//! How the bytes of a record are parted.
ghost use Rattle.std.specs.Prelude.{◌≡◌, ◌<◌, ◌^◌, ◌++◌, ℕ, List, length, IfSome, IfNone};
ghost use Rattle.std.specs.Int.{w16, w32, w64, to_be_bytes};
ghost use Rattle.object_journal.specs.declared.key.Key.{Key};
ghost use Rattle.object_journal.specs.declared.entry.Entry.{Entry};
ghost use Rattle.object_journal.specs.declared.entry.Change.{Change};
ghost use Rattle.object_journal.specs.Payload.{number_fields};
ghost use Rattle.object_journal.specs.Parts.{key_seen, change_seen, entry_seen, IsText, AreTwoTexts, IsKey, IsChange, IsPayload, IsRecordAt};

use crate::framed::LONGEST_PAYLOAD;
use crate::parts::{ChangePart, EntryPart, KeyPart};

fn take_u16(bytes: &[u8]) -> Option<(u16, &[u8])>
    ensures some { IfSome result (λ r. bytes.now ≡ to_be_bytes w16 r.0 ++ r.1.now) }
    ensures none { IfNone result (length bytes.now < 2) }
{
    if bytes.len() < 2 {
        return None;
    }
    let (front, rest) = bytes.split_at(2);
    Some((u16::from_be_bytes([front[0], front[1]]), rest))
}

pub(crate) fn take_u32(bytes: &[u8]) -> Option<(u32, &[u8])>
    ensures some { IfSome result (λ r. bytes.now ≡ to_be_bytes w32 r.0 ++ r.1.now) }
    ensures none { IfNone result (length bytes.now < 4) }
{
    if bytes.len() < 4 {
        return None;
    }
    let (front, rest) = bytes.split_at(4);
    let number = u32::from_be_bytes([front[0], front[1], front[2], front[3]]);
    Some((number, rest))
}

pub(crate) fn take_u64(bytes: &[u8]) -> Option<(u64, &[u8])>
    ensures some { IfSome result (λ r. bytes.now ≡ to_be_bytes w64 r.0 ++ r.1.now) }
    ensures none { IfNone result (length bytes.now < 8) }
{
    if bytes.len() < 8 {
        return None;
    }
    let (front, rest) = bytes.split_at(8);
    let number = u64::from_be_bytes([
        front[0], front[1], front[2], front[3], front[4], front[5], front[6], front[7],
    ]);
    Some((number, rest))
}

fn take_text(bytes: &[u8]) -> Option<(&str, &[u8])>
    ensures some { IfSome result (λ r. IsText bytes.now r.0.now r.1.now) }
    ensures none { IfNone result ((text rest : List ℕ) → ¬ IsText bytes.now text rest) }
{
    let Some((size, rest)) = take_u16(bytes) else {
        return None;
    };
    let size = size as usize;
    if rest.len() < size {
        return None;
    }
    let (text, rest) = rest.split_at(size);
    let Ok(text) = str::from_utf8(text) else {
        return None;
    };
    Some((text, rest))
}

fn take_two(bytes: &[u8]) -> Option<(&str, &str, &[u8])>
    ensures some { IfSome result (λ r. AreTwoTexts bytes.now r.0.now r.1.now r.2.now) }
    ensures none { IfNone result ((a b rest : List ℕ) → ¬ AreTwoTexts bytes.now a b rest) }
{
    let Some((first, rest)) = take_text(bytes) else {
        return None;
    };
    let Some((second, rest)) = take_text(rest) else {
        return None;
    };
    Some((first, second, rest))
}

fn take_key(bytes: &[u8]) -> Option<(KeyPart<'_>, &[u8])>
    ensures some { IfSome result (λ r. IsKey bytes.now (key_seen r.0) r.1.now) }
    ensures none { IfNone result ((k : Key) (rest : List ℕ) → ¬ IsKey bytes.now k rest) }
{
    let Some((group, resource, rest)) = take_two(bytes) else {
        return None;
    };
    let Some((namespace, name, rest)) = take_two(rest) else {
        return None;
    };
    let key = KeyPart {
        group,
        resource,
        namespace,
        name,
    };
    Some((key, rest))
}

fn change_of(tag: u8, created: u64, body: &[u8]) -> Option<ChangePart<'_>>
    ensures some { IfSome result (λ c. IsChange tag created body.now (change_seen c)) }
    ensures none { IfNone result ((c : Change) → ¬ IsChange tag created body.now c) }
{
    match tag {
        0 => Some(ChangePart::Put { created, body }),
        1 if created == 0 && body.is_empty() => Some(ChangePart::Removal),
        _ => None,
    }
}

fn take_numbers(bytes: &[u8]) -> Option<(u8, u64, u64, &[u8])>
    ensures some { IfSome result (λ r. (bytes.now ≡ number_fields r.0 r.1 r.2 ++ r.3.now)
        × (r.2 < 2 ^ 64)) }
    ensures none { IfNone result (length bytes.now < 17) }
{
    let Some((tag, rest)) = bytes.split_first() else {
        return None;
    };
    let Some((revision, rest)) = take_u64(rest) else {
        return None;
    };
    let Some((created, rest)) = take_u64(rest) else {
        return None;
    };
    Some((*tag, revision, created, rest))
}

fn take_payload(bytes: &[u8]) -> Option<EntryPart<'_>>
    ensures some { IfSome result (λ e. IsPayload bytes.now (entry_seen e)) }
    ensures none { IfNone result ((e : Entry) → ¬ IsPayload bytes.now e) }
{
    let Some((tag, revision, created, rest)) = take_numbers(bytes) else {
        return None;
    };
    let Some((key, body)) = take_key(rest) else {
        return None;
    };
    let Some(change) = change_of(tag, created, body) else {
        return None;
    };
    Some(EntryPart {
        key,
        revision,
        change,
    })
}

/// The record at the front, and the place of the gate behind it.
pub(crate) fn take_record(bytes: &[u8]) -> Option<(EntryPart<'_>, usize)>
    ensures some { IfSome result (λ r. IsRecordAt bytes.now (entry_seen r.0) r.1) }
    ensures none { IfNone result ((e : Entry) (place : ℕ) → ¬ IsRecordAt bytes.now e place) }
{
    let Some((size, rest)) = take_u32(bytes) else {
        return None;
    };
    let size = size as usize;
    if size > LONGEST_PAYLOAD || rest.len() <= size {
        return None;
    }
    match take_payload(&rest[..size]) {
        Some(entry) => Some((entry, 4 + size)),
        None => None,
    }
}
