//! Reading a journal from its bytes.
ghost use Rattle.std.specs.Prelude.{◌≤◌, ℕ, length, IfSome, IfNone, IfOk, IsErrOf};
ghost use Rattle.object_journal.specs.Journal.{HasNoHeader, IsBrokenAt, IsRefusal, last_revision};
ghost use Rattle.object_journal.specs.declared.reader.ReadFault.TheVariants.{BrokenAt};
ghost use Rattle.object_journal.specs.Readings.{HasHeader, Begins, Gathers};

use crate::gather::Gather;
use crate::parting::take_u64;
use crate::reading::{Reading, RecordFault};
use crate::rules::LAST_REVISION;
use std::alloc::Global;
use std::collections::BTreeSet;

pub(crate) const OPEN_GATE: u8 = 0x4f;

/// Why bytes are no journal.
#[derive(Clone, Copy, Debug, PartialEq, Eq)]
pub(crate) enum ReadFault {
    /// They break the grammar at this place.
    BrokenAt(u64),
    /// Memory ran out.
    Memory,
}

// The base that the header at the front tells.
fn base_of(bytes: &[u8]) -> Option<u64>
    ensures some { IfSome result (λ base. HasHeader bytes.now base) }
    ensures none { IfNone result (HasNoHeader bytes.now) }
{
    let Some(rest) = bytes.strip_prefix(b"KEMUJNL1") else {
        return None;
    };
    let Some((base, _)) = take_u64(rest) else {
        return None;
    };
    if base > LAST_REVISION {
        return None;
    }
    Some(base)
}

fn begun(alloc: Global, base: u64) -> Reading
    requires { base ≤ last_revision }
    ensures { Begins result base }
{
    Reading {
        base,
        revision: base,
        held: BTreeSet::new(alloc),
    }
}

fn read_behind<G: Gather>(
    alloc: Global,
    bytes: &[u8],
    base: u64,
) -> Result<(Reading, G, usize), ReadFault>
    requires header { HasHeader bytes.now base }
    requires long { 17 ≤ length bytes.now }
    ensures ok { IfOk result (λ r. Gathers G.is_of r.0 r.1 bytes.now r.2) }
    ensures broken { (place : ℕ) → IsErrOf result (BrokenAt place) → IsBrokenAt bytes.now place }
{
    let mut reading = begun(alloc, base);
    let mut gathered = G::none(alloc);
    let mut place = 16;
    while bytes[place] == OPEN_GATE {
        let (_, behind) = bytes.split_at(place + 1);
        let (entry, next) = match reading.advance(alloc, behind) {
            Ok(record) => record,
            Err(RecordFault::Unlawful) => return Err(ReadFault::BrokenAt(place as u64)),
            Err(RecordFault::Memory) => return Err(ReadFault::Memory),
        };
        let Ok(()) = gathered.take_in(alloc, entry) else {
            return Err(ReadFault::Memory);
        };
        place += 1 + next;
    }
    Ok((reading, gathered, place))
}

/// What the bytes of a file mean, with what their entries make and the place of the gate behind them, or the place where
/// they break the grammar.
pub(crate) fn read_journal<G: Gather>(
    alloc: Global,
    bytes: &[u8],
) -> Result<(Reading, G, usize), ReadFault>
    ensures ok { IfOk result (λ r. Gathers G.is_of r.0 r.1 bytes.now r.2) }
    ensures broken { (place : ℕ) → IsErrOf result (BrokenAt place) → IsRefusal bytes.now place }
{
    if bytes.len() <= 16 {
        return Ok((begun(alloc, 0), G::none(alloc), 16));
    }
    let Some(base) = base_of(bytes) else {
        return Err(ReadFault::BrokenAt(0));
    };
    if bytes.len() == 17 {
        return Ok((begun(alloc, base), G::none(alloc), 16));
    }
    read_behind(alloc, bytes, base)
}
