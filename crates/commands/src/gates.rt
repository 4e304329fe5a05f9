//! The command `gates`: the feature gates of a release, set by a text.
ghost use Rattle.std.specs.Prelude.{◌≡◌, ◌++◌, IfOk, codes, string_bytes, take};
ghost use Rattle.commands.specs.Answers.{Meets};
ghost use Rattle.commands.specs.Gates.{IsGateListing, stage_title, bool_word, gate_line, gate_lines};
ghost use Rattle.release_choice.specs.Choice.{text_of};

use crate::answer::Answer;
use crate::options::{emulated_refusal, text_or_empty};
use answer_lines::gate_refusal;
use basis::Memory;
use gate_flags::{GateFault, GateRow, GateValues, gate_values};
use gate_spec::Stage;
use release_choice::emulated_release;
use schemas::Accepted;
use std::alloc::{AllocError, Global};

fn title(stage: Stage) -> &'static str
    ensures { result.now ≡ stage_title stage }
{
    match stage {
        Stage::Alpha => "ALPHA",
        Stage::Beta => "BETA",
        Stage::Ga => "GA",
        Stage::Deprecated => "DEPRECATED",
    }
}

fn word(value: bool) -> &'static str
    ensures { result.now ≡ bool_word value }
{
    if value { "true" } else { "false" }
}

fn row_line(
    alloc: Global,
    name: &str,
    stage: &str,
    default: &str,
    locked: &str,
    value: &str,
) -> Result<String, AllocError>
    ensures { IfOk result (λ s. string_bytes s ≡ name.now ++ (codes " " ++ (stage.now
        ++ (codes " default=" ++ (default.now ++ (codes " locked=" ++ (locked.now
        ++ (codes " value=" ++ (value.now ++ codes "\n"))))))))) }
{
    format!(in alloc; "{name} {stage} default={default} locked={locked} value={value}\n")
}

fn line_of(alloc: Global, row: &GateRow) -> Result<String, AllocError>
    ensures { IfOk result (λ s. string_bytes s ≡ gate_line row.now) }
{
    let name = row.name.as_str();
    let stage = title(row.stage);
    row_line(
        alloc,
        name,
        stage,
        word(row.default),
        word(row.locked),
        word(row.value),
    )
}

/// A line for each gate that the release knows.
fn listed_gates(alloc: Global, values: &GateValues) -> Result<String, Memory>
    ensures { IfOk result (λ s. string_bytes s ≡ gate_lines values.now.rows) }
{
    let mut text = String::new(alloc);
    for row in values.rows() {
        let line = line_of(alloc, row)?;
        text.push_str(line.as_str())?;
    }
    Ok(text)
}

/// The gates of a release, set by a text, or why the release or the text is refused.
pub fn answer(
    alloc: Global,
    emulated: Option<&str>,
    features: Option<&str>,
    accepted: &Accepted,
) -> Result<Answer, Memory>
    ensures { IfOk result (Meets (IsGateListing (text_of emulated.entry) (text_of features.entry) accepted.now)) }
{
    let e = match emulated_release(emulated, accepted) {
        Ok(e) => e,
        Err(fault) => return emulated_refusal(alloc, accepted, fault),
    };
    let features = text_or_empty(features);
    let entries = accepted.history().gates.items();
    match gate_values(alloc, entries, e, features.as_bytes()) {
        Ok(values) => {
            let text = listed_gates(alloc, &values)?;
            Ok(Answer::done(text))
        }
        Err(GateFault::Memory) => Err(Memory),
        Err(GateFault::At { place, cause }) => {
            let text = gate_refusal(alloc, place, cause)?;
            Ok(Answer::refused_option(text))
        }
    }
}
