//! A release history, and the places in its document.
#![tactic(auto)]

mod accepted;
mod array;
mod broken;
mod history;
mod laws;
mod shapes;

pub use accepted::Accepted;
pub use array::Array;
pub use broken::Broken;
pub use fields::{
    Field, FieldList, FieldPair, FieldRow, FieldRows, FieldType, FieldValue, Fields, Form, Path,
    Spell, SpellList, TextList, VersionTable,
};
pub use history::{ApiList, GateList, History};
pub use laws::{
    accepted_is_unbroken, decodable_version_is_spelled, each_field_has_row, first_fault_is_one,
    gates_rise_in_date, live_kind_stays_live, live_version_stays_decodable,
    pairs_have_one_spelling, paths_are_apart, rows_are_alike, rows_are_kept, rows_are_lawful,
    version_is_introduced_once,
};
pub use shapes::{is_field_id, is_gate_name, is_group, is_kind, is_resource};
