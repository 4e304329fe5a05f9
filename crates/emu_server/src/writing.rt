//! The last thing that a call does: a text is written, with a status.
ghost use Rattle.std.specs.Prelude.{◌≡◌, ◌≤◌, ◌⊎◌};
ghost use Rattle.basis.specs.Counts.{Rose};
ghost use Rattle.emu_server.specs.Written.{IsWritten};

use commands::Status;
use outside::Sink;

/// Writes a text, and ends with a status.
pub fn end_with<K: Sink>(out: &mut K, text: &[u8], status: Status) -> Status
    ensures written { IsWritten (K.written out.old) (K.written out.new) result status text.now }
    ensures fault { result ≡ Status.WriteFault →
        (status ≡ Status.WriteFault) ⊎ Rose (K.faults out.old) (K.faults out.new) }
    ensures fine { (result ≡ Status.WriteFault) ⊎ (K.faults out.new ≡ K.faults out.old) }
    ensures later { K.faults out.old ≤ K.faults out.new }
{
    match out.write(text) {
        Ok(()) => status,
        Err(_) => Status::WriteFault,
    }
}
