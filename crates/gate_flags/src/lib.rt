//! Feature gate texts, as `AllAlpha=true,WidgetColor=false`: which of them a release accepts, and which value each
//! gate has then.
#![tactic(auto)]

mod fault;
mod flags;
mod known;
mod law;
mod passes;
mod rows;
mod values;

pub use fault::{GateCause, GateFault};
pub use flags::gate_values;
pub use law::{emulation_of_gates, text_has_one_answer, texts_by_same_gates};
pub use values::{GateRow, GateValues, RemovedGate};
