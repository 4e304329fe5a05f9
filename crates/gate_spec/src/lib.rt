//! Dated feature gates: what a release history says of a gate.
#![tactic(auto)]

mod entry;
mod in_force;
mod law;
mod stage;

pub use entry::{GateChange, GateEntry, SpecAt, Stage};
pub use in_force::{rises_in_date, spec_at};
pub use law::{emulation_of_specs, gate_has_one_spec};
pub use stage::stage_named;
