//! What a member of a history document must hold.
ghost use Rattle.std.specs.Prelude.{◌↔◌, IsTrue, IsSome, All, option_map};
ghost use Rattle.toml.specs.View.{view, array_view};
ghost use Rattle.lifecycle.specs.Version.{IsVersion};
ghost use Rattle.toml.specs.Data.{as_array, as_str, as_table};
ghost use Rattle.history_reader.specs.Demands.{IsRelease, IsStage, IsEvent, AreTables, TextHasShape, HasShape, Meets};

use crate::words::{form_named, is_path_text, is_scalar, type_named};
use gate_spec::stage_named;
use lifecycle::version_word;
use minor_version::parse_plain;
use schemas::{is_field_id, is_gate_name, is_group, is_kind, is_resource};
use toml::Value;
use toml::value::Array;

/// The shape of a text.
#[derive(Clone, Copy, Debug, PartialEq, Eq)]
pub enum TextShape {
    Release,
    GateName,
    StageWord,
    GroupName,
    VersionWord,
    ResourceName,
    KindName,
    EventWord,
    FieldId,
    TypeWord,
    PathText,
    FormWord,
}

/// The type and the shape of a member's value.
#[derive(Clone, Copy, Debug, PartialEq, Eq)]
pub enum Shape {
    Flag,
    /// The boolean `true` alone.
    OnlyTrue,
    /// A boolean, a whole number or a text.
    Scalar,
    /// An array of tables, also of none.
    Tables,
    Text(TextShape),
}

/// What must stand at a member.
#[derive(Clone, Copy, Debug, PartialEq, Eq)]
pub enum Demand {
    Required(Shape),
    Optional(Shape),
    Absent,
}

fn is_release(text: &[u8]) -> bool
    ensures { IsTrue result ↔ IsRelease text.now }
{
    parse_plain(text).is_some()
}

fn is_stage(text: &[u8]) -> bool
    ensures { IsTrue result ↔ IsStage text.now }
{
    stage_named(text).is_some()
}

fn is_version(text: &[u8]) -> bool
    ensures { IsTrue result ↔ IsVersion text.now }
{
    version_word(text).is_some()
}

fn is_event(text: &str) -> bool
    ensures { IsTrue result ↔ IsEvent text.now }
{
    matches!(text, "introduced" | "deprecated" | "removed" | "forgotten")
}

fn all_tables(items: &[Value]) -> bool
    ensures { IsTrue result ↔ All (λ v. IsSome (as_table (view v))) items.now }
{
    items.iter().all(|value| value.is_table())
}

fn are_tables(array: &Array) -> bool
    ensures { IsTrue result ↔ AreTables (array_view array.now) }
{
    all_tables(array.as_slice())
}

/// Whether the text is of the shape.
fn text_has_shape(shape: TextShape, text: &str) -> bool
    ensures { IsTrue result ↔ TextHasShape shape text.now }
{
    let bytes = text.as_bytes();
    match shape {
        TextShape::Release => is_release(bytes),
        TextShape::GateName => is_gate_name(bytes),
        TextShape::StageWord => is_stage(bytes),
        TextShape::GroupName => is_group(bytes),
        TextShape::VersionWord => is_version(bytes),
        TextShape::ResourceName => is_resource(bytes),
        TextShape::KindName => is_kind(bytes),
        TextShape::EventWord => is_event(text),
        TextShape::FieldId => is_field_id(bytes),
        TextShape::TypeWord => type_named(text).is_some(),
        TextShape::PathText => is_path_text(text),
        TextShape::FormWord => form_named(text).is_some(),
    }
}

/// Whether the value is of the type and the shape.
pub fn has_shape(shape: Shape, value: &Value) -> bool
    ensures { IsTrue result ↔ HasShape shape (view value.now) }
{
    match shape {
        Shape::Flag => value.is_bool(),
        Shape::OnlyTrue => value.as_bool() == Some(true),
        Shape::Scalar => is_scalar(value),
        Shape::Tables => match value.as_array() {
            Some(array) => are_tables(array),
            None => false,
        },
        Shape::Text(shape) => match value.as_str() {
            Some(text) => text_has_shape(shape, text),
            None => false,
        },
    }
}

/// Whether what stands at a member, if anything does, is what must stand there.
pub fn meets(demand: Demand, found: Option<&Value>) -> bool
    ensures { IsTrue result ↔ Meets demand (option_map (λ v. view v.now) found.entry) }
{
    match (demand, found) {
        (Demand::Required(shape), Some(value)) => has_shape(shape, value),
        (Demand::Required(_), None) => false,
        (Demand::Optional(shape), Some(value)) => has_shape(shape, value),
        (Demand::Optional(_), None) => true,
        (Demand::Absent, found) => found.is_none(),
    }
}
