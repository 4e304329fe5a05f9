//! The history that bytes are, or why they are none that is accepted; and what is answered to a command on them.
ghost use Rattle.std.specs.Prelude.{◌≡◌, IfOk, IfErr, string_bytes};
ghost use Rattle.commands.specs.Answers.{Meets};
ghost use Rattle.commands.specs.Work.{IsPlain};
ghost use Rattle.emu_server.specs.Answer.{IsAnswerTo};
ghost use Rattle.emu_server.specs.Histories.{IsNoHistory, MeansAccepted};
ghost use Rattle.emu_server.specs.Lines.{entry_line, reading_line, rule_line};

use basis::Memory;
use commands::{Answer, work};
use history_reader::{HistoryFault, read_history};
use history_rules::{CheckFault, check};
use schemas::{Accepted, Array};
use std::alloc::{AllocError, Global};
use words::Command;

/// Why bytes are no history that is accepted.
#[derive(Debug, Drop)]
pub enum NoHistory {
    /// This line says why.
    Refused(String),
    /// Memory ran out.
    Memory,
}

impl From<AllocError> for NoHistory {
    ghost use Rattle.std.specs.Prelude.{◌≡◌};
    ghost use Rattle.emu_server.specs.declared.refusals.NoHistory.TheVariants.{Memory as NoMemory};

    ghost from_gives = { λ _ fault. fault ≡ NoMemory };

    fn from(_memory: AllocError) -> NoHistory {
        NoHistory::Memory
    }
}

/// Why the bytes of a history are refused.
fn reading_refusal(alloc: Global, fault: &HistoryFault) -> Result<String, AllocError>
    ensures { IfOk result (λ s. string_bytes s ≡ reading_line fault.now) }
{
    match fault {
        HistoryFault::Memory => String::from_str(alloc, ""),
        HistoryFault::TooLong => String::from_str(alloc, "history: too long\n"),
        HistoryFault::NotToml => String::from_str(alloc, "history: not TOML\n"),
        HistoryFault::BadEntry {
            array,
            index,
            member,
        } => entry_refusal(alloc, *array, *index, member.as_str()),
    }
}

fn entry_refusal(
    alloc: Global,
    array: Array,
    index: u64,
    member: &str,
) -> Result<String, AllocError>
    ensures { IfOk result (λ s. string_bytes s ≡ entry_line array index member.now) }
{
    let array = array.name();
    format!(in alloc; "history: entry {array} {index} member {member}\n")
}

/// Which rule a history breaks, and where.
fn rule_refusal(alloc: Global, rule: u8, array: Array, number: u64) -> Result<String, AllocError>
    ensures { IfOk result (λ s. string_bytes s ≡ rule_line rule array number) }
{
    let array = array.name();
    format!(in alloc; "history: rule HR{rule} at {array} {number}\n")
}

/// The history that the bytes mean, if it is accepted.
pub fn accepted_history(alloc: Global, bytes: &[u8]) -> Result<Accepted, NoHistory>
    ensures ok { IfOk result (MeansAccepted bytes.now) }
    ensures refused { IfErr result (IsNoHistory bytes.now) }
{
    let history = match read_history(alloc, bytes) {
        Ok(history) => history,
        Err(HistoryFault::Memory) => return Err(NoHistory::Memory),
        Err(fault) => {
            let text = reading_refusal(alloc, &fault)?;
            return Err(NoHistory::Refused(text));
        }
    };
    match check(alloc, history) {
        Ok(accepted) => Ok(accepted),
        Err(CheckFault::Memory) => Err(NoHistory::Memory),
        Err(CheckFault::Broken { rule, array, index }) => {
            let text = rule_refusal(alloc, rule, array, index)?;
            Err(NoHistory::Refused(text))
        }
    }
}

/// What is to be answered to a command on these bytes.
pub fn answer_to(alloc: Global, command: &Command, bytes: &[u8]) -> Result<Answer, Memory>
    requires { IsPlain command.now }
    ensures { IfOk result (Meets (IsAnswerTo command.now bytes.now)) }
{
    match accepted_history(alloc, bytes) {
        Ok(accepted) => work(alloc, command, &accepted),
        Err(NoHistory::Refused(text)) => Ok(Answer::refused_history(text)),
        Err(NoHistory::Memory) => Err(Memory),
    }
}
