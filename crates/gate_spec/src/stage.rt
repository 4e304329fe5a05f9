//! The words of stages.
ghost use Rattle.std.specs.Prelude.{◌≡◌, ◌≢◌, IfSome, IfNone};
ghost use Rattle.gate_spec.specs.Stages.{stage_word};
ghost use Rattle.gate_spec.specs.declared.entry.Stage.{Stage as TheStage};

use crate::entry::Stage;

/// The stage that a word names in a history document: `ALPHA`, `BETA`, `DEPRECATED`, or empty for general
/// availability.
pub fn stage_named(word: &[u8]) -> Option<Stage>
    ensures some { IfSome result (λ s. word.now ≡ stage_word s) }
    ensures none { IfNone result ((s : TheStage) → word.now ≢ stage_word s) }
{
    match word {
        b"ALPHA" => Some(Stage::Alpha),
        b"BETA" => Some(Stage::Beta),
        b"" => Some(Stage::Ga),
        b"DEPRECATED" => Some(Stage::Deprecated),
        _ => None,
    }
}
