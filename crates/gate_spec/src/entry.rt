use minor_version::{Minor, Text};

/// The stage of a feature gate (the stages of Kubernetes' `component-base/featuregate`).
#[derive(Clone, Copy, Debug, PartialEq, Eq)]
pub enum Stage {
    Alpha,
    Beta,
    /// General availability.
    Ga,
    Deprecated,
}

/// What happens to a feature gate.
#[derive(Clone, Copy, Debug, PartialEq, Eq)]
pub enum GateChange {
    /// From here on the gate is at this stage and has this default; where it is `locked`, it can't be set to another
    /// value.
    Spec {
        stage: Stage,
        default: bool,
        locked: bool,
    },
    /// From here on the gate is unknown, and stays at its last default.
    Gone,
}

/// A change of a feature gate, dated by the release since which it holds.
#[derive(Debug, Drop)]
pub struct GateEntry {
    pub name: Text,
    pub since: Minor,
    pub change: GateChange,
}

/// What a release knows of a feature gate.
#[derive(Clone, Copy, Debug, PartialEq, Eq)]
pub enum SpecAt {
    /// The gate is known, with the spec in force.
    Found {
        stage: Stage,
        default: bool,
        locked: bool,
    },
    /// The gate comes only later.
    PreAlpha,
    /// The gate was removed, and stays at this value.
    Removed(bool),
    /// The history never names the gate.
    Never,
}
