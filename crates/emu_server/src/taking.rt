//! The bytes of a history, from its source.
ghost use Rattle.std.specs.Prelude.{◌≡◌, ◌≤◌, ◌+◌, ℕ, List, Some, vec_len, take, IfOk, OnOk, IfErr};
ghost use Rattle.std.specs.Io.KnownBytes.{Keeps, Consumes, IsAtEnd};
ghost use Rattle.basis.specs.Counts.{Rose};
ghost use Rattle.emu_server.specs.Run.{TakesAtMost};

use history_reader::LONGEST_DOCUMENT;
use outside::Source;
use std::alloc::Global;

/// How many bytes are asked for at once.
const PIECE: usize = 4096;

/// Why no history was taken.
#[derive(Clone, Copy, Debug, PartialEq, Eq)]
pub enum TakeFault {
    Memory,
    Read,
}

/// Takes all the bytes of a source, or one more than the longest history has.
pub fn take_history<S: Source>(alloc: Global, source: &mut S) -> Result<Vec<u8>, TakeFault>
    ensures bytes { IfOk result (λ v. Consumes (S.left source.old) (S.left source.new) v.items) }
    ensures most { IfOk result (λ v. vec_len v ≤ LONGEST_DOCUMENT + 1) }
    ensures end { IfOk result (λ v. vec_len v ≤ LONGEST_DOCUMENT → IsAtEnd (S.left source.new)) }
    ensures taken { TakesAtMost (LONGEST_DOCUMENT + 1) (S.left source.old) (S.left source.new) }
    ensures read { IfErr result
        (λ e. e ≡ TakeFault.Read → Rose (S.faults source.old) (S.faults source.new)) }
    ensures fine { OnOk result (S.faults source.new ≡ S.faults source.old) }
    ensures memory { IfErr result
        (λ e. e ≡ TakeFault.Memory → S.faults source.new ≡ S.faults source.old) }
    ensures later { S.faults source.old ≤ S.faults source.new }
{
    let mut taken = Vec::new(alloc);
    let mut buffer = [0u8; PIECE];
    while taken.len() <= LONGEST_DOCUMENT {
        let room = (LONGEST_DOCUMENT + 1 - taken.len()).min(PIECE);
        let piece = &mut buffer[..room];
        let Ok(count) = source.read(piece) else {
            return Err(TakeFault::Read);
        };
        if count == 0 {
            return Ok(taken);
        }
        let Ok(()) = taken.extend_from_slice(&piece[..count]) else {
            return Err(TakeFault::Memory);
        };
    }
    Ok(taken)
}
