//! The words of stages, types and forms, and paths as texts.
ghost use Rattle.std.specs.Prelude.{◌≡◌, ◌++◌, IfOk, codes, string_bytes};
ghost use Rattle.std.specs.List.{flat_map};
ghost use Rattle.gate_spec.specs.Stages.{stage_word as the_stage_word};
ghost use Rattle.history_reader.specs.Words.{type_word as the_type_word};
ghost use Rattle.history_toml.specs.Tables.{dotted as dotted_names};

use basis::Memory;
use fields::FieldType;
use gate_spec::Stage;
use minor_version::Text;
use std::alloc::{AllocError, Global};

/// The word of a gate's stage; that of general availability is empty.
pub fn stage_word(stage: Stage) -> &'static str
    ensures { result.now ≡ the_stage_word stage }
{
    match stage {
        Stage::Alpha => "ALPHA",
        Stage::Beta => "BETA",
        Stage::Ga => "",
        Stage::Deprecated => "DEPRECATED",
    }
}

/// The word of a field's type.
pub fn type_word(ty: FieldType) -> &'static str
    ensures { result.now ≡ the_type_word ty }
{
    match ty {
        FieldType::Bool => "Bool",
        FieldType::Int => "Int",
        FieldType::Text => "Text",
        FieldType::TextList => "TextList",
    }
}

// The text, and behind it each name with a dot before it.
fn with_inner(front: String, names: &[Text]) -> Result<String, AllocError>
    ensures { IfOk result (λ s. string_bytes s
        ≡ string_bytes front ++ flat_map (λ name. codes "." ++ name) names.now) }
{
    let mut text = front;
    for name in names {
        text.push_str(".")?;
        text.push_str(name.as_str())?;
    }
    Ok(text)
}

/// The names of a path, joined by dots.
pub fn dotted(alloc: Global, path: &[Text]) -> Result<String, Memory>
    ensures { IfOk result (λ s. string_bytes s ≡ dotted_names path.now) }
{
    match path {
        [] => Ok(String::new(alloc)),
        [first, rest @ ..] => {
            let front = String::from_str(alloc, first.as_str())?;
            Ok(with_inner(front, rest)?)
        }
    }
}
