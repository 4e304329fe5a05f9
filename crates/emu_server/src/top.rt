//! The top calls.
ghost use Rattle.std.specs.Prelude.{◌≡◌, ◌≤◌, ◌+◌, ◌⊎◌, ℕ, List, Some, IfOk, IfSome, IfNone};
ghost use Rattle.std.specs.Io.KnownBytes.{Keeps, IsAtEnd};
ghost use Rattle.basis.specs.Counts.{Rose};
ghost use Rattle.emu_server.specs.Answer.{IsCommandLine};
ghost use Rattle.emu_server.specs.Complete.{CanServe, IsCalm};
ghost use Rattle.emu_server.specs.Run.{IsEnd, IsPlainEnd, TakesAtMost};
ghost use Rattle.emu_server.specs.Serving.{AsksToServe, ServesWith};
ghost use Rattle.emu_server.specs.Top.{IsRun, IsServeRun};
ghost use Rattle.commands.specs.Texts.{texts_given};
ghost use Rattle.commands.specs.Work.{IsPlain};
ghost use Rattle.object_journal.specs.Standing.{chosen};
ghost use Rattle.served_history.specs.Releases.{FlagTexts as TheTexts};
ghost use Rattle.words.specs.Commands.{IsCommand};
ghost use Rattle.words.specs.Settings.{texts_of};
ghost use Rattle.world.specs.Fronts.{IsAboveMark, IsAtStart};

use crate::refusals::answer_to;
use crate::serving::serve_bytes;
use crate::taking::{TakeFault, take_history};
use crate::writing::end_with;
use basis::Memory;
use commands::{Status, is_plain};
use history_reader::LONGEST_DOCUMENT;
use outside::{Sink, Source};
use std::alloc::Global;
use words::{Command, FlagTexts, WordsFault, read_words, words_have_one_command};
use world::Front;

const USAGE: &[u8] = b"usage: kube_emu <command> [options]\n";

/// Does what a command is to do with the history that the source holds, and writes the answer.
fn answer_plain<S: Source, K: Sink>(
    alloc: Global,
    command: &Command,
    history: &mut S,
    out: &mut K,
) -> Status
    requires plain { IsPlain command.now }
    ensures ends { (bytes : List ℕ) × Keeps (S.left history.old) (Some bytes)
        × IsPlainEnd command.now bytes (Rose (S.faults history.old) (S.faults history.new))
        result (K.written out.old) (K.written out.new) }
    ensures whole { result ≡ Status.Ok → IsAtEnd (S.left history.new) }
    ensures taken { TakesAtMost (LONGEST_DOCUMENT + 1) (S.left history.old) (S.left history.new) }
    ensures read_fault { result ≡ Status.ReadFault →
        Rose (S.faults history.old) (S.faults history.new) }
    ensures write_fault { result ≡ Status.WriteFault → Rose (K.faults out.old) (K.faults out.new) }
    ensures reads_fine { (result ≡ Status.ReadFault) ⊎ (result ≡ Status.WriteFault)
        ⊎ (S.faults history.new ≡ S.faults history.old) }
    ensures writes_fine { (result ≡ Status.WriteFault) ⊎ (K.faults out.new ≡ K.faults out.old) }
    ensures reads_later { S.faults history.old ≤ S.faults history.new }
    ensures writes_later { K.faults out.old ≤ K.faults out.new }
{
    match take_history(alloc, history) {
        Ok(bytes) => match answer_to(alloc, command, bytes.as_slice()) {
            Ok(answer) => end_with(out, answer.text.as_bytes(), answer.status),
            Err(_) => Status::Memory,
        },
        Err(TakeFault::Read) => end_with(out, b"read fault\n", Status::ReadFault),
        Err(TakeFault::Memory) => Status::Memory,
    }
}

/// The command that reads a history and prints an answer, if the words ask for one.
fn plain_command(alloc: Global, words: &[&str]) -> Result<Option<Command>, Memory>
    ensures some { IfOk result (λ o. IfSome o (λ c. IsCommand (texts_of words.now) c × IsPlain c)) }
    ensures none { IfOk result (λ o. IfNone o (¬ IsCommandLine (texts_of words.now))) }
{
    words_have_one_command(words);
    match read_words(alloc, words) {
        Ok(command) => {
            if is_plain(&command) {
                Ok(Some(command))
            } else {
                Ok(None)
            }
        }
        Err(WordsFault::Usage) => Ok(None),
        Err(WordsFault::Memory) => Err(Memory),
    }
}

/// Does what the words say with the history that the source holds, and writes the answer: all that the program does but to
/// serve.
///
/// The words are those behind the program's name. Whatever the status, what was written is a front of the right answer.
pub fn run_plain<S: Source, K: Sink>(
    alloc: Global,
    words: &[&str],
    history: &mut S,
    out: &mut K,
) -> Status
    // The end is right for the bytes of the history: those that were left in the source, where it tells them.
    ensures ends { (bytes : List ℕ) × Keeps (S.left history.old) (Some bytes)
        × IsEnd (texts_of words.now) bytes (Rose (S.faults history.old) (S.faults history.new))
        result (K.written out.old) (K.written out.new) }

    // At Ok the source was read to its end, at words of no command not at all, and never by more than one byte too
    // many.
    ensures whole { result ≡ Status.Ok → IsAtEnd (S.left history.new) }
    ensures unread { ¬ IsCommandLine (texts_of words.now) →
        Keeps (S.left history.old) (S.left history.new) }
    ensures taken { TakesAtMost (LONGEST_DOCUMENT + 1) (S.left history.old) (S.left history.new) }

    // A fault is answered only where the count of its object rose, and where one rose.
    ensures read_fault { result ≡ Status.ReadFault →
        Rose (S.faults history.old) (S.faults history.new) }
    ensures write_fault { result ≡ Status.WriteFault → Rose (K.faults out.old) (K.faults out.new) }
    ensures reads_fine { (result ≡ Status.ReadFault) ⊎ (result ≡ Status.WriteFault)
        ⊎ (S.faults history.new ≡ S.faults history.old) }
    ensures writes_fine { (result ≡ Status.WriteFault) ⊎ (K.faults out.new ≡ K.faults out.old) }
    ensures reads_later { S.faults history.old ≤ S.faults history.new }
    ensures writes_later { K.faults out.old ≤ K.faults out.new }
{
    match plain_command(alloc, words) {
        Ok(Some(command)) => answer_plain(alloc, &command, history, out),
        Ok(None) => end_with(out, USAGE, Status::Usage),
        Err(_) => Status::Memory,
    }
}

/// The texts that choose what the command serves, if it serves.
fn flags_of(command: Command) -> Option<FlagTexts>
    ensures some { IfSome result (λ flags. ServesWith command (texts_given flags)) }
    ensures none { IfNone result ((t : TheTexts) → ¬ ServesWith command t) }
{
    match command {
        Command::Serve { flags, .. } => Some(flags),
        Command::Replay { flags, .. } => Some(flags),
        Command::Check
        | Command::Fold
        | Command::Cut { .. }
        | Command::Discover { .. }
        | Command::Gates { .. }
        | Command::Convert { .. }
        | Command::Twin { .. } => None,
    }
}

/// The texts that choose what is served, if the words ask to serve.
fn served_texts(alloc: Global, words: &[&str]) -> Result<Option<FlagTexts>, Memory>
    ensures some { IfOk result (λ o. IfSome o (λ flags. AsksToServe (texts_of words.now) (texts_given flags))) }
    ensures none { IfOk result (λ o. IfNone o ((t : TheTexts) → ¬ AsksToServe (texts_of words.now) t)) }
{
    words_have_one_command(words);
    match read_words(alloc, words) {
        Ok(command) => Ok(flags_of(command)),
        Err(WordsFault::Usage) => Ok(None),
        Err(WordsFault::Memory) => Err(Memory),
    }
}

/// Serves the history that the source holds, and says how that ended.
fn serve<S: Source, K: Sink, W: Front>(
    alloc: Global,
    flags: &FlagTexts,
    history: &mut S,
    out: &mut K,
    world: &mut W,
) -> Status
    requires start { IsAtStart (W.beside world.old) }
    ensures ends { (bytes : List ℕ) × Keeps (S.left history.old) (Some bytes)
        × IsServeRun W.tells W.clock W.may_leave W.held W.pending W.beside bytes (texts_given flags.now)
        (Rose (S.faults history.old) (S.faults history.new)) world.old world.new
        result (K.written out.old) (K.written out.new) }
    ensures taken { TakesAtMost (LONGEST_DOCUMENT + 1) (S.left history.old) (S.left history.new) }
    ensures read_fault { result ≡ Status.ReadFault →
        Rose (S.faults history.old) (S.faults history.new) }
    ensures write_fault { result ≡ Status.WriteFault → Rose (K.faults out.old) (K.faults out.new) }
    ensures reads_fine { (result ≡ Status.ReadFault) ⊎ (result ≡ Status.WriteFault)
        ⊎ (S.faults history.new ≡ S.faults history.old) }
    ensures writes_fine { (result ≡ Status.WriteFault) ⊎ (K.faults out.new ≡ K.faults out.old) }
    ensures reads_later { S.faults history.old ≤ S.faults history.new }
    ensures writes_later { K.faults out.old ≤ K.faults out.new }
    ensures disk_fault { result ≡ Status.DiskFault → Rose (W.faults world.old) (W.faults world.new) }
    ensures front_fault { result ≡ Status.FrontFault → IsAboveMark (W.beside world.new) }
{
    match take_history(alloc, history) {
        Ok(bytes) => serve_bytes(alloc, flags, bytes.as_slice(), out, world),
        Err(TakeFault::Read) => end_with(out, b"read fault\n", Status::ReadFault),
        Err(TakeFault::Memory) => Status::Memory,
    }
}

/// Does what the words say, with the history that the source holds, on the world: all that the program does. A command that
/// serves answers the connections of the world's front as the emulated release, over the store of the world's disk.
pub fn run<S: Source, K: Sink, W: Front>(
    alloc: Global,
    words: &[&str],
    history: &mut S,
    out: &mut K,
    world: &mut W,
) -> Status
    requires start { IsAtStart (W.beside world.old) }

    // The end is right for the bytes of the history: those that were left in the source, where it tells them.
    ensures ends { (bytes : List ℕ) × Keeps (S.left history.old) (Some bytes)
        × IsRun W.tells W.clock W.may_leave W.held W.pending W.beside (texts_of words.now) bytes
        (Rose (S.faults history.old) (S.faults history.new)) world.old world.new
        result (K.written out.old) (K.written out.new) }
    ensures taken { TakesAtMost (LONGEST_DOCUMENT + 1) (S.left history.old) (S.left history.new) }

    // A fault is answered only where the count of its object rose.
    ensures read_fault { result ≡ Status.ReadFault →
        Rose (S.faults history.old) (S.faults history.new) }
    ensures write_fault { result ≡ Status.WriteFault → Rose (K.faults out.old) (K.faults out.new) }
    ensures reads_fine { (result ≡ Status.ReadFault) ⊎ (result ≡ Status.WriteFault)
        ⊎ (S.faults history.new ≡ S.faults history.old) }
    ensures writes_fine { (result ≡ Status.WriteFault) ⊎ (K.faults out.new ≡ K.faults out.old) }
    ensures reads_later { S.faults history.old ≤ S.faults history.new }
    ensures writes_later { K.faults out.old ≤ K.faults out.new }
    ensures disk_fault { result ≡ Status.DiskFault → Rose (W.faults world.old) (W.faults world.new) }
    ensures front_fault { result ≡ Status.FrontFault → IsAboveMark (W.beside world.new) }

    // What can be served is served to the front's end, where nothing fails beneath; but for want of memory.
    ensures complete { W.tells → (bytes : List ℕ) → S.left history.old ≡ Some bytes
        → CanServe (texts_of words.now) bytes (W.held world.old chosen)
        → IsCalm (S.faults history.old) (S.faults history.new) (K.faults out.old) (K.faults out.new)
        (W.faults world.old) (W.faults world.new) (W.beside world.new)
        → (result ≡ Status.Ok) ⊎ (result ≡ Status.Memory) }
{
    words_have_one_command(words);
    match served_texts(alloc, words) {
        Ok(Some(flags)) => serve(alloc, &flags, history, out, world),
        Ok(None) => run_plain(alloc, words, history, out),
        Err(_) => Status::Memory,
    }
}
