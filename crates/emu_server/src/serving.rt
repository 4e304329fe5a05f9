//! A history is served: from its bytes to the line that says how serving ended.
ghost use Rattle.std.specs.Prelude.{◌≡◌, ◌≤◌, ◌⊎◌, ◌≢◌};
ghost use Rattle.basis.specs.Counts.{Rose};
ghost use Rattle.commands.specs.Texts.{texts_given};
ghost use Rattle.emu_server.specs.Serving.{IsServedFrom, IsServing};
ghost use Rattle.world.specs.Fronts.{IsAboveMark, IsAtStart};

use crate::refusals::{NoHistory, accepted_history};
use crate::writing::end_with;
use commands::{Status, line_of, status_of, texts_in};
use outside::Sink;
use schemas::Accepted;
use served_history::serve_history;
use std::alloc::Global;
use words::FlagTexts;
use world::Front;

/// Serves an accepted history, and says how that ended.
fn serve_accepted<K: Sink, W: Front>(
    alloc: Global,
    flags: &FlagTexts,
    accepted: &Accepted,
    out: &mut K,
    world: &mut W,
) -> Status
    requires start { IsAtStart (W.beside world.old) }
    ensures ends { IsServing W.tells W.clock W.may_leave W.held W.pending W.beside accepted.now
        (texts_given flags.now) world.old world.new result (K.written out.old) (K.written out.new) }
    ensures write_fault { result ≡ Status.WriteFault → Rose (K.faults out.old) (K.faults out.new) }
    ensures writes_fine { (result ≡ Status.WriteFault) ⊎ (K.faults out.new ≡ K.faults out.old) }
    ensures writes_later { K.faults out.old ≤ K.faults out.new }
    ensures disk_fault { result ≡ Status.DiskFault → Rose (W.faults world.old) (W.faults world.new) }
    ensures front_fault { result ≡ Status.FrontFault → IsAboveMark (W.beside world.new) }
    ensures read { result ≢ Status.ReadFault }
{
    let end = serve_history(alloc, accepted, texts_in(flags), world);
    match line_of(alloc, accepted, &end) {
        Ok(line) => end_with(out, line.as_bytes(), status_of(&end)),
        Err(_) => Status::Memory,
    }
}

/// Serves the history that the bytes mean, and says how that ended, or why they mean none that is accepted.
pub fn serve_bytes<K: Sink, W: Front>(
    alloc: Global,
    flags: &FlagTexts,
    bytes: &[u8],
    out: &mut K,
    world: &mut W,
) -> Status
    requires start { IsAtStart (W.beside world.old) }
    ensures ends { IsServedFrom W.tells W.clock W.may_leave W.held W.pending W.beside bytes.now
        (texts_given flags.now) world.old world.new result (K.written out.old) (K.written out.new) }
    ensures write_fault { result ≡ Status.WriteFault → Rose (K.faults out.old) (K.faults out.new) }
    ensures writes_fine { (result ≡ Status.WriteFault) ⊎ (K.faults out.new ≡ K.faults out.old) }
    ensures writes_later { K.faults out.old ≤ K.faults out.new }
    ensures disk_fault { result ≡ Status.DiskFault → Rose (W.faults world.old) (W.faults world.new) }
    ensures front_fault { result ≡ Status.FrontFault → IsAboveMark (W.beside world.new) }
    ensures read { result ≢ Status.ReadFault }
{
    match accepted_history(alloc, bytes) {
        Ok(accepted) => serve_accepted(alloc, flags, &accepted, out, world),
        Err(NoHistory::Refused(text)) => end_with(out, text.as_bytes(), Status::History),
        Err(NoHistory::Memory) => Status::Memory,
    }
}
